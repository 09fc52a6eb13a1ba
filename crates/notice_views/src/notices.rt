//! The body of a notice.
ghost use Rattle.std.specs.Prelude.{◌≡◌, IfOk, IsUtf8, OnOk, Some, codes, string_bytes};
ghost use Rattle.json_views.specs.Instance.{instance_id, instance_path};
ghost use Rattle.json_views.specs.Links.{link};
ghost use Rattle.json_views.specs.Moments.{moment_text};
ghost use Rattle.json_views.specs.Occurrence.{occurrence_id, occurrence_path};
ghost use Rattle.notice_views.specs.Made.{needed_members, with_operation};
ghost use Rattle.notice_views.specs.Notice.{IsIdentified, instance_notice, notice_id, notice_links, notice_text};
ghost use Rattle.json_views.specs.Subscription.{subscription_id, subscription_path};
ghost use Rattle.notice_views.specs.Notice.{notice_value, operation_notice};
ghost use Rattle.serde_json.specs.Data.{member, no_members};
ghost use Rattle.serde_json.specs.Read.{read};
ghost use Rattle.serde_json.specs.View.{members_view, view};
ghost use Rattle.vnfm_base.specs.Ident.{IsIdentNumber};

use crate::texts::{moment_string, notice_id};
use crate::words::status_word;
use json_members::{put_text, written};
use json_views::{
    instance_id, instance_path, kind_word, notice_word, occurrence_id, occurrence_path, state_word,
    subscription_id, subscription_path,
};
use lcm_events::{NoticeKind, OpKind, OpState};
use serde_json::{Map, Value, json, put};
use std::alloc::{AllocError, Global};
use vnfm_base::{Bytes, Moment};

/// What a notice is about.
///
/// Source: SOL 003 5.5.2.17 to 5.5.2.19 (the notifications).
#[derive(Clone, Copy)]
pub enum Subject {
    /// An instance was created.
    Creation {
        /// Its number.
        instance: u64,
    },
    /// An instance was deleted.
    Deletion {
        /// Its number.
        instance: u64,
    },
    /// An operation came into a state.
    Occurrence {
        /// The number of its occurrence.
        occ: u64,
        /// The number of its instance.
        instance: u64,
        /// Its kind.
        kind: OpKind,
        /// The state.
        state: OpState,
    },
}

/// A notice to a subscription.
///
/// Source: SOL 003 5.5.2.17 to 5.5.2.19 (the notifications).
#[derive(Clone, Copy)]
pub struct Notice {
    /// The number of the manager.
    pub manager: u32,
    /// The number of the subscription.
    pub subscription: u64,
    /// The place in the journal, from 1, of the event that it tells of.
    pub place: u64,
    /// When that happened.
    pub moment: Moment,
    /// What it is about.
    pub subject: Subject,
}

/// The body of a notice: a JSON object as compact text. `AllocError` is want of memory.
///
/// Condition: the numbers of the subscription, the place, the instance and the occurrence are from 1 to 2^62 - 1.
/// Source: SOL 003 5.5.2.17 to 5.5.2.19 (the notifications).
#[tactic(auto, unfolding(crate::specs::Notice::notice_text))]
pub fn notice_body(alloc: Global, notice: &Notice) -> Result<Bytes, AllocError>
    requires subscription { IsIdentNumber notice.now.subscription }
    requires place { IsIdentNumber notice.now.place }
    requires subject { IsIdentified notice.now.subject }
    ensures text { IfOk result (λ body. body ≡ notice_text notice.now) }
    ensures reads { IfOk result (λ body. IsUtf8 body × (read body ≡ Some (notice_value notice.now))) }
{
    let value = notice_value(alloc, notice)?;
    written(alloc, &value)
}

/// The value of the body.
fn notice_value(alloc: Global, notice: &Notice) -> Result<Value, AllocError>
    requires subscription { IsIdentNumber notice.now.subscription }
    requires place { IsIdentNumber notice.now.place }
    requires subject { IsIdentified notice.now.subject }
    ensures { IfOk result (λ value. view value ≡ notice_value notice.now) }
{
    match notice.subject {
        Subject::Creation { instance } => {
            instance_notice(alloc, notice, instance, notice_word(NoticeKind::Creation))
        }
        Subject::Deletion { instance } => {
            instance_notice(alloc, notice, instance, notice_word(NoticeKind::Deletion))
        }
        Subject::Occurrence {
            occ,
            instance,
            kind,
            state,
        } => operation_notice(alloc, notice, occ, instance, kind, state),
    }
}

/// The notice that an instance was created, or deleted, by the name of its type.
fn instance_notice(
    alloc: Global,
    notice: &Notice,
    instance: u64,
    name: &str,
) -> Result<Value, AllocError>
    requires subscription { IsIdentNumber notice.now.subscription }
    requires place { IsIdentNumber notice.now.place }
    requires instance { IsIdentNumber instance }
    ensures { IfOk result (λ value. view value ≡ instance_notice name.now notice.now instance) }
{
    let mut members = needed_members(alloc, notice, instance, name)?;
    let links = instance_links(alloc, notice, instance)?;
    put(&mut members, alloc, "_links", links)?;
    Ok(Value::Object(members))
}

/// The notice that an operation of an instance came into a state.
fn operation_notice(
    alloc: Global,
    notice: &Notice,
    occ: u64,
    instance: u64,
    kind: OpKind,
    state: OpState,
) -> Result<Value, AllocError>
    requires subscription { IsIdentNumber notice.now.subscription }
    requires place { IsIdentNumber notice.now.place }
    requires occ { IsIdentNumber occ }
    requires instance { IsIdentNumber instance }
    ensures { IfOk result (λ value. view value ≡ operation_notice notice.now occ instance kind state) }
{
    let name = notice_word(NoticeKind::Occurrence);
    let mut members = needed_members(alloc, notice, instance, name)?;
    let id = occurrence_id(alloc, notice.manager, occ)?;
    put_operation(&mut members, alloc, id.as_str(), kind, state)?;
    let links = operation_links(alloc, notice, instance, occ)?;
    put(&mut members, alloc, "_links", links)?;
    Ok(Value::Object(members))
}

/// The members that every notice has but for its links.
fn needed_members(
    alloc: Global,
    notice: &Notice,
    instance: u64,
    name: &str,
) -> Result<Map<String, Value>, AllocError>
    requires subscription { IsIdentNumber notice.now.subscription }
    requires place { IsIdentNumber notice.now.place }
    requires instance { IsIdentNumber instance }
    ensures { IfOk result (λ members. members_view members.entries
        ≡ needed_members (notice_id notice.now.manager notice.now.place) name.now
        (subscription_id notice.now.manager notice.now.subscription) (moment_text notice.now.moment)
        (instance_id notice.now.manager instance)) }
{
    let id = notice_id(alloc, notice.manager, notice.place)?;
    let subscription = subscription_id(alloc, notice.manager, notice.subscription)?;
    let moment = moment_string(alloc, notice.moment)?;
    let instance = instance_id(alloc, notice.manager, instance)?;
    members_of(
        alloc,
        id.as_str(),
        name,
        subscription.as_str(),
        moment.as_str(),
        instance.as_str(),
    )
}

/// The same, by their texts.
fn members_of(
    alloc: Global,
    id: &str,
    name: &str,
    subscription: &str,
    moment: &str,
    instance: &str,
) -> Result<Map<String, Value>, AllocError>
    ensures { IfOk result (λ members. members_view members.entries
        ≡ needed_members id.now name.now subscription.now moment.now instance.now) }
{
    let mut members = Map::new(alloc);
    put_text(&mut members, alloc, "id", id)?;
    put_text(&mut members, alloc, "notificationType", name)?;
    put_text(&mut members, alloc, "subscriptionId", subscription)?;
    put_text(&mut members, alloc, "timeStamp", moment)?;
    put_text(&mut members, alloc, "vnfInstanceId", instance)?;
    Ok(members)
}

/// Puts the members of an operation, whose occurrence has this identifier. Where there is no memory for them, the
/// object is of no further use.
fn put_operation(
    members: &mut Map<String, Value>,
    alloc: Global,
    occ: &str,
    kind: OpKind,
    state: OpState,
) -> Result<(), AllocError>
    ensures { OnOk result (members_view members.new.entries
        ≡ with_operation occ.now kind state (members_view members.old.entries)) }
{
    put(members, alloc, "isAutomaticInvocation", Value::Bool(false))?;
    put_text(members, alloc, "notificationStatus", status_word(state))?;
    put_text(members, alloc, "operation", kind_word(kind))?;
    put_text(members, alloc, "operationState", state_word(state))?;
    put_text(members, alloc, "vnfLcmOpOccId", occ)
}

/// The links of a notice of an instance.
fn instance_links(alloc: Global, notice: &Notice, instance: u64) -> Result<Value, AllocError>
    requires subscription { IsIdentNumber notice.now.subscription }
    requires instance { IsIdentNumber instance }
    ensures { IfOk result (λ value. view value
        ≡ notice_links (subscription_path notice.now.manager notice.now.subscription)
        (instance_path notice.now.manager instance) no_members) }
{
    let subscription = subscription_path(alloc, notice.manager, notice.subscription)?;
    let instance = instance_path(alloc, notice.manager, instance)?;
    two_links(alloc, subscription.as_str(), instance.as_str())
}

/// The links to these paths.
fn two_links(alloc: Global, subscription: &str, instance: &str) -> Result<Value, AllocError>
    ensures { IfOk result (λ value. view value ≡ notice_links subscription.now instance.now no_members) }
{
    json!(in alloc; {"subscription": {"href": subscription}, "vnfInstance": {"href": instance}})
}

/// The links of a notice of an operation.
fn operation_links(
    alloc: Global,
    notice: &Notice,
    instance: u64,
    occ: u64,
) -> Result<Value, AllocError>
    requires subscription { IsIdentNumber notice.now.subscription }
    requires instance { IsIdentNumber instance }
    requires occ { IsIdentNumber occ }
    ensures { IfOk result (λ value. view value
        ≡ notice_links (subscription_path notice.now.manager notice.now.subscription)
        (instance_path notice.now.manager instance)
        (member (codes "vnfLcmOpOcc") (link (occurrence_path notice.now.manager occ)) no_members)) }
{
    let subscription = subscription_path(alloc, notice.manager, notice.subscription)?;
    let instance = instance_path(alloc, notice.manager, instance)?;
    let occ = occurrence_path(alloc, notice.manager, occ)?;
    three_links(
        alloc,
        subscription.as_str(),
        instance.as_str(),
        occ.as_str(),
    )
}

/// The links to these paths.
fn three_links(
    alloc: Global,
    subscription: &str,
    instance: &str,
    occ: &str,
) -> Result<Value, AllocError>
    ensures { IfOk result (λ value. view value
        ≡ notice_links subscription.now instance.now (member (codes "vnfLcmOpOcc") (link occ.now) no_members)) }
{
    json!(in alloc; {
        "subscription": {"href": subscription},
        "vnfInstance": {"href": instance},
        "vnfLcmOpOcc": {"href": occ},
    })
}
