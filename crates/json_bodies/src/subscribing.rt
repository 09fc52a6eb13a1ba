//! The body that asks for a subscription.
ghost use Rattle.std.specs.Prelude.{◌≡◌, IsOk, codes, true};
ghost use Rattle.serde_json.specs.View.{view};
ghost use Rattle.vnfm_base.specs.Text.{is_label};
ghost use Rattle.json_bodies.specs.Body.{Gives};
ghost use Rattle.json_bodies.specs.Subscribing.{about_in, all_instances, filter_in, inside_object, instances_in};
ghost use Rattle.json_bodies.specs.Subscribing.{no_filter, object_or_wrong, subscription_in, subscription_of};
ghost use Rattle.json_bodies.specs.Subscribing.{values_in};
ghost use Rattle.json_bodies.specs.Tables.{fault_in};

use crate::body::{BodyFault, object};
use crate::forms::{
    AnyLine, AnyName, Form, check_needed, check_optional, label, member, needed, optional,
};
use crate::lists::ListOf;
use crate::words::{AnyNoticeKind, AnyOpState, AnyOperationType};
use lcm_events::{Filter, Listed, Names};
use serde_json::Value;
use std::alloc::Global;
use vnfm_base::Line;

/// Values that a list of a filter may have.
const VALUES_MAX: usize = 64;

/// The body of a request to subscribe.
///
/// Source: SOL 003 5.5.2.15 (LccnSubscriptionRequest).
#[derive(Drop)]
pub struct SubscriptionBody {
    /// `callbackUri`.
    pub callback: Line,
    /// `filter`; one that asks nothing where the member is absent.
    pub asked: AskedFilter,
}

/// The filter that a request to subscribe has.
///
/// Source: SOL 003 5.5.3 (LifecycleChangeNotificationsFilter).
#[derive(Drop)]
pub struct AskedFilter {
    /// Its lists, of at most 64 values each. Absent ones are empty.
    pub filter: Filter,
    /// Whether it has `vnfProductsFromProviders`, which isn't served.
    pub products: bool,
}

/// Which instances the filter of a request to subscribe is about.
///
/// Source: SOL 003 5.5.3 (VnfInstanceSubscriptionFilter).
#[derive(Drop)]
pub struct AskedInstances {
    vnfds: Names,
    instances: Names,
    names: Names,
    products: bool,
}

/// Reads the body of a request to subscribe.
///
/// Refusals: `Malformed` exactly where the bytes are no JSON object; `Lacks` and `Wrong` with the first member that
/// fails, in the order `callbackUri`, a line, `filter`, an object, and inside it `vnfInstanceSubscriptionFilter`, an
/// object with `vnfdIds`, `vnfInstanceIds` and `vnfInstanceNames`, lists of names, then `notificationTypes`,
/// `operationTypes` and `operationStates`, lists of their words, each list of at most 64 values; `Memory`, where there
/// was none to read the bytes as JSON, or for a body that would be taken.
/// Source: SOL 003 5.5.2.15 (LccnSubscriptionRequest); own limit.
pub fn read_subscription(alloc: Global, bytes: &[u8]) -> Result<SubscriptionBody, BodyFault>
    ensures { Gives result (subscription_of bytes.now) }
{
    let value = object(alloc, bytes)?;
    subscription_body(alloc, &value)
}

fn subscription_body(alloc: Global, value: &Value) -> Result<SubscriptionBody, BodyFault>
    ensures gives { Gives result (subscription_in (view value.now)) }
    ensures memory { result ≡ Err BodyFault.Memory → IsOk (subscription_in (view value.now)) }
{
    check_needed(value, "callbackUri", &AnyLine {})?;
    let asked = match member(value, "filter") {
        Some(filter) => asked_filter(alloc, filter)?,
        None => no_filter(alloc),
    };
    let callback = needed(alloc, value, "callbackUri", &AnyLine {})?;
    Ok(SubscriptionBody { callback, asked })
}

/// A filter that asks nothing.
fn no_filter(alloc: Global) -> AskedFilter
    ensures { result ≡ no_filter }
{
    AskedFilter {
        filter: Filter {
            vnfds: Listed::new(alloc),
            instances: Listed::new(alloc),
            names: Listed::new(alloc),
            notices: Listed::new(alloc),
            operations: Listed::new(alloc),
            states: Listed::new(alloc),
        },
        products: false,
    }
}

/// What the value of `filter` says. Memory is taken once all of it is found to be good.
fn asked_filter(alloc: Global, value: &Value) -> Result<AskedFilter, BodyFault>
    ensures gives { Gives result (inside_object filter_in (codes "filter") (view value.now)) }
    ensures memory { result ≡ Err BodyFault.Memory → IsOk (inside_object filter_in (codes "filter") (view value.now)) }
{
    check_object(value, "filter")?;
    check_filter(value)?;
    filter_members(alloc, value)
}

/// What the members of a filter say.
fn filter_members(alloc: Global, value: &Value) -> Result<AskedFilter, BodyFault>
    ensures { Gives result (filter_in (view value.now)) }
{
    let about = asked_instances(alloc, value)?;
    let notices = values(alloc, value, "notificationTypes", AnyNoticeKind {})?;
    let operations = values(alloc, value, "operationTypes", AnyOperationType {})?;
    let states = values(alloc, value, "operationStates", AnyOpState {})?;
    Ok(AskedFilter {
        filter: Filter {
            vnfds: about.vnfds,
            instances: about.instances,
            names: about.names,
            notices,
            operations,
            states,
        },
        products: about.products,
    })
}

/// Which instances a filter is about.
fn asked_instances(alloc: Global, value: &Value) -> Result<AskedInstances, BodyFault>
    ensures { Gives result (about_in (view value.now)) }
{
    match member(value, "vnfInstanceSubscriptionFilter") {
        Some(about) => {
            check_object(about, "vnfInstanceSubscriptionFilter")?;
            instances(alloc, about)
        }
        None => Ok(all_instances(alloc)),
    }
}

/// Which instances a filter without such a member is about.
fn all_instances(alloc: Global) -> AskedInstances
    ensures { result ≡ all_instances }
{
    AskedInstances {
        vnfds: Listed::new(alloc),
        instances: Listed::new(alloc),
        names: Listed::new(alloc),
        products: false,
    }
}

/// Which instances the members of an object say.
fn instances(alloc: Global, value: &Value) -> Result<AskedInstances, BodyFault>
    ensures { Gives result (instances_in (view value.now)) }
{
    let vnfds = values(alloc, value, "vnfdIds", AnyName {})?;
    let instances = values(alloc, value, "vnfInstanceIds", AnyName {})?;
    let names = values(alloc, value, "vnfInstanceNames", AnyName {})?;
    Ok(AskedInstances {
        vnfds,
        instances,
        names,
        products: member(value, "vnfProductsFromProviders").is_some(),
    })
}

/// The values of a list, none where it is absent.
fn values<T: Drop, F: Form<T> + Drop>(
    alloc: Global,
    value: &Value,
    name: &str,
    entry: F,
) -> Result<Listed<T>, BodyFault>
    requires { is_label name.now ≡ true }
    ensures { Gives result (values_in (F.says entry) name.now (view value.now)) }
{
    let list = ListOf {
        most: VALUES_MAX,
        entry,
    };
    let said: Option<Listed<T>> = optional(alloc, value, name, &list)?;
    match said {
        Some(values) => Ok(values),
        None => Ok(Listed::new(alloc)),
    }
}

/// Refuses a filter in which something is wrong, without memory.
fn check_filter(value: &Value) -> Result<(), BodyFault>
    ensures { fault_in result ≡ fault_in (filter_in (view value.now)) }
{
    check_about(value)?;
    check_values(value, "notificationTypes", AnyNoticeKind {})?;
    check_values(value, "operationTypes", AnyOperationType {})?;
    check_values(value, "operationStates", AnyOpState {})
}

/// Refuses what a filter is about where something is wrong with it, without memory.
fn check_about(value: &Value) -> Result<(), BodyFault>
    ensures { fault_in result ≡ fault_in (about_in (view value.now)) }
{
    match member(value, "vnfInstanceSubscriptionFilter") {
        Some(about) => {
            check_object(about, "vnfInstanceSubscriptionFilter")?;
            check_instances(about)
        }
        None => Ok(()),
    }
}

/// Refuses instances of which something is wrong, without memory.
fn check_instances(value: &Value) -> Result<(), BodyFault>
    ensures { fault_in result ≡ fault_in (instances_in (view value.now)) }
{
    check_values(value, "vnfdIds", AnyName {})?;
    check_values(value, "vnfInstanceIds", AnyName {})?;
    check_values(value, "vnfInstanceNames", AnyName {})
}

/// Refuses a list in which something is wrong, without memory.
fn check_values<T: Drop, F: Form<T> + Drop>(
    value: &Value,
    name: &str,
    entry: F,
) -> Result<(), BodyFault>
    requires { is_label name.now ≡ true }
    ensures { fault_in result ≡ fault_in (values_in (F.says entry) name.now (view value.now)) }
{
    let list = ListOf {
        most: VALUES_MAX,
        entry,
    };
    check_optional(value, name, &list)
}

/// Refuses a member whose value is no object.
fn check_object(value: &Value, name: &str) -> Result<(), BodyFault>
    requires { is_label name.now ≡ true }
    ensures { result ≡ object_or_wrong name.now (view value.now) }
{
    if value.is_object() {
        Ok(())
    } else {
        Err(BodyFault::Wrong(label(name)))
    }
}
