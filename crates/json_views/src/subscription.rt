//! The view of a subscription.
ghost use Rattle.std.specs.Prelude.{◌≡◌, ◌==◌, All, IfOk, None, OnOk, Some, codes, filter, if◌then◌else◌, length};
ghost use Rattle.std.specs.Prelude.{option_map, string_bytes, true};
ghost use Rattle.serde_json.specs.View.{members_view, view};
ghost use Rattle.serde_json.specs.Data.{string};
ghost use Rattle.json_bodies.specs.Words.{notice_word, operation_type_word, state_word};
ghost use Rattle.json_members.specs.Members.{put_where};
ghost use Rattle.json_views.specs.Views.{array_of};
ghost use Rattle.json_views.specs.Subscription.{about_members, filter_members, object_where, subscription_id};
ghost use Rattle.json_views.specs.Subscription.{subscription_path, subscription_text, subscription_value};
ghost use Rattle.json_views.specs.Subscription.{subscriptions_text};
ghost use Rattle.lcm_events.specs.Same.{same_role};
ghost use Rattle.vnfm_base.specs.Ident.{IsIdentNumber};
ghost use Rattle.vnfm_base.specs.Text.{IsLine};

use crate::instance::identifier;
use crate::links::put_link;
use crate::members::{Shows, array_text, put_array, put_text, put_where, text_value};
use crate::words::{notice_word, operation_type_word, state_word};
use instance_table::SubscriptionRow;
use json_members::written;
use lcm_events::{Filter, NoticeKind, OpState, OperationType, Role};
use serde_json::{Map, Value, put};
use std::alloc::{AllocError, Global};
use vnfm_base::{Bytes, Kind, Line, Name};

/// The text of the identifier of subscription `n` at this manager.
///
/// Condition: `n` is from 1 to 2^62 - 1.
/// Source: RFC 9562 4.
#[tactic(auto, unfolding(crate::specs::Subscription::subscription_id))]
pub fn subscription_id(alloc: Global, manager: u32, n: u64) -> Result<String, AllocError>
    requires { IsIdentNumber n }
    ensures { IfOk result (λ id. string_bytes id ≡ subscription_id manager n) }
{
    identifier(alloc, manager, Kind::Subscription, n)
}

/// The path of subscription `n`: where it is found, and what `Location` says of it.
///
/// Condition: `n` is from 1 to 2^62 - 1.
/// Source: SOL 003 5.4.19 (Individual subscription).
#[tactic(auto, unfolding(crate::specs::Subscription::subscription_path))]
pub fn subscription_path(alloc: Global, manager: u32, n: u64) -> Result<String, AllocError>
    requires { IsIdentNumber n }
    ensures path { IfOk result (λ path. string_bytes path ≡ subscription_path manager n) }
    ensures line { IfOk result (λ path. IsLine (string_bytes path)) }
{
    let id = subscription_id(alloc, manager, n)?;
    let mut path = String::from_str(alloc, "/vnflcm/v1/subscriptions/")?;
    path.push_str(id.as_str())?;
    Ok(path)
}

/// The whole view of subscription `n`, whose notices go to this callback. The time is linear in its filter.
///
/// Condition: `n` is from 1 to 2^62 - 1.
/// Source: SOL 003 5.5.2.16 (LccnSubscription).
#[tactic(auto, unfolding(crate::specs::Subscription::subscription_text))]
pub fn subscription_view(
    alloc: Global,
    manager: u32,
    n: u64,
    callback: &Line,
    filter: &Filter,
) -> Result<Bytes, AllocError>
    requires { IsIdentNumber n }
    ensures { IfOk result (λ body. body ≡ subscription_text manager n callback.now filter.now) }
{
    let value = subscription_value(alloc, manager, n, callback, filter)?;
    written(alloc, &value)
}

/// The views of the subscriptions of a role among these, in their order. There is one at a time, beside the text.
///
/// Condition: the number of each is from 1 to 2^62 - 1.
/// Source: SOL 003 5.4.18 (Subscriptions); that a role sees its own alone is an own rule.
#[tactic(auto, unfolding(crate::specs::Subscription::subscriptions_text))]
pub fn subscriptions_view(
    alloc: Global,
    manager: u32,
    role: Role,
    rows: &[SubscriptionRow],
) -> Result<Bytes, AllocError>
    requires { All (λ row. IsIdentNumber row.number) rows.now }
    ensures { IfOk result (λ body. body ≡ subscriptions_text manager role rows.now) }
{
    array_text(alloc, rows, &OfRole { manager, role })
}

fn subscription_value(
    alloc: Global,
    manager: u32,
    n: u64,
    callback: &Line,
    filter: &Filter,
) -> Result<Value, AllocError>
    requires { IsIdentNumber n }
    ensures { IfOk result (λ value. view value ≡ subscription_value manager n callback.now filter.now) }
{
    let id = subscription_id(alloc, manager, n)?;
    let path = subscription_path(alloc, manager, n)?;
    let mut links = Map::new(alloc);
    put_link(&mut links, alloc, "self", path.as_str())?;
    let filter = object_where(filter_members(alloc, filter)?);
    let mut members = Map::new(alloc);
    put(&mut members, alloc, "_links", Value::Object(links))?;
    put_text(&mut members, alloc, "callbackUri", callback.as_str())?;
    put_where(&mut members, alloc, "filter", filter)?;
    put_text(&mut members, alloc, "id", id.as_str())?;
    Ok(Value::Object(members))
}

/// The lists of a filter that ask something.
fn filter_members(alloc: Global, filter: &Filter) -> Result<Map<String, Value>, AllocError>
    ensures { IfOk result (λ members. members_view members.entries ≡ filter_members filter.now) }
{
    let about = object_where(about_members(alloc, filter)?);
    let mut members = Map::new(alloc);
    put_texts(
        &mut members,
        alloc,
        "notificationTypes",
        filter.notices.as_slice(),
        &NoticeKinds {},
    )?;
    put_texts(
        &mut members,
        alloc,
        "operationStates",
        filter.states.as_slice(),
        &OpStates {},
    )?;
    put_texts(
        &mut members,
        alloc,
        "operationTypes",
        filter.operations.as_slice(),
        &OperationTypes {},
    )?;
    put_where(&mut members, alloc, "vnfInstanceSubscriptionFilter", about)?;
    Ok(members)
}

/// Which instances a filter is about.
fn about_members(alloc: Global, filter: &Filter) -> Result<Map<String, Value>, AllocError>
    ensures { IfOk result (λ members. members_view members.entries ≡ about_members filter.now) }
{
    let mut members = Map::new(alloc);
    put_texts(
        &mut members,
        alloc,
        "vnfInstanceIds",
        filter.instances.as_slice(),
        &Texts {},
    )?;
    put_texts(
        &mut members,
        alloc,
        "vnfInstanceNames",
        filter.names.as_slice(),
        &Texts {},
    )?;
    put_texts(
        &mut members,
        alloc,
        "vnfdIds",
        filter.vnfds.as_slice(),
        &Texts {},
    )?;
    Ok(members)
}

/// The members as an object, where there are some.
fn object_where(members: Map<String, Value>) -> Option<Value>
    ensures { option_map view result ≡ object_where (members_view members.entries) }
{
    if members.is_empty() {
        None
    } else {
        Some(Value::Object(members))
    }
}

/// Puts the texts of the values of a list, where it has some.
fn put_texts<T, S: Shows<T>>(
    members: &mut Map<String, Value>,
    alloc: Global,
    name: &str,
    values: &[T],
    shows: &S,
) -> Result<(), AllocError>
    requires ready { S.IsReady shows.now }
    requires each { All (S.MayShow shows.now) values.now }
    ensures { OnOk result (members_view members.new.entries
        ≡ put_where name.now (if length values.now == 0 then None
        else Some (array_of (S.shown shows.now) (filter (S.has shows.now) values.now)))
        (members_view members.old.entries)) }
{
    if values.is_empty() {
        Ok(())
    } else {
        put_array(members, alloc, name, values, shows)
    }
}

/// Names as they are.
#[derive(Clone, Copy)]
struct Texts {}

impl Shows<Name> for Texts {
    ghost IsReady = { λ s. Unit {0} };

    ghost has = { λ s x. true };

    ghost shown = { λ s x. string x };

    fn has(&self, _name: &Name) -> bool {
        true
    }

    fn show(&self, alloc: Global, name: &Name) -> Result<Value, AllocError> {
        text_value(alloc, name.as_str())
    }
}

/// Kinds of notifications by their words.
#[derive(Clone, Copy)]
struct NoticeKinds {}

impl Shows<NoticeKind> for NoticeKinds {
    ghost IsReady = { λ s. Unit {0} };

    ghost has = { λ s x. true };

    ghost shown = { λ s x. string (notice_word x) };

    fn has(&self, _kind: &NoticeKind) -> bool {
        true
    }

    fn show(&self, alloc: Global, kind: &NoticeKind) -> Result<Value, AllocError> {
        text_value(alloc, notice_word(*kind))
    }
}

/// Operation types by their words.
#[derive(Clone, Copy)]
struct OperationTypes {}

impl Shows<OperationType> for OperationTypes {
    ghost IsReady = { λ s. Unit {0} };

    ghost has = { λ s x. true };

    ghost shown = { λ s x. string (operation_type_word x) };

    fn has(&self, _operation: &OperationType) -> bool {
        true
    }

    fn show(&self, alloc: Global, operation: &OperationType) -> Result<Value, AllocError> {
        text_value(alloc, operation_type_word(*operation))
    }
}

/// States of an occurrence by their words.
#[derive(Clone, Copy)]
struct OpStates {}

impl Shows<OpState> for OpStates {
    ghost IsReady = { λ s. Unit {0} };

    ghost has = { λ s x. true };

    ghost shown = { λ s x. string (state_word x) };

    fn has(&self, _state: &OpState) -> bool {
        true
    }

    fn show(&self, alloc: Global, state: &OpState) -> Result<Value, AllocError> {
        text_value(alloc, state_word(*state))
    }
}

/// Subscriptions of a role, each by its view.
#[derive(Clone, Copy)]
struct OfRole {
    manager: u32,
    role: Role,
}

impl Shows<SubscriptionRow> for OfRole {
    ghost IsReady = { λ s. Unit {0} };

    ghost MayShow = { λ s row. IsIdentNumber row.number };

    ghost has = { λ s row. same_role row.role s.role };

    ghost shown = { λ s row. subscription_value s.manager row.number row.callback row.filter };

    fn has(&self, row: &SubscriptionRow) -> bool {
        row.role == self.role
    }

    fn show(&self, alloc: Global, row: &SubscriptionRow) -> Result<Value, AllocError> {
        subscription_value(alloc, self.manager, row.number, &row.callback, &row.filter)
    }
}
