//! What a step draws, and the request of its wish, over what is live.
ghost use Rattle.std.specs.Prelude.{◌≡◌, IfOk, List, false, length, option_map, slice_get, string_bytes};
ghost use Rattle.executor.specs.Managed.{Keeps};
ghost use Rattle.instance_table.specs.Rows.{instance_rows};
ghost use Rattle.lcm_events.specs.declared.events.Event.{Event};
ghost use Rattle.lcm_trial.specs.Requests.{draw_over, path_about, path_of, request_at, request_of};
ghost use Rattle.vnfm_base.specs.Ident.{IsIdentNumber};

use crate::draws::{below, next_drawn};
use crate::wishes::{Wish, body_of, is_about_operation, method_of, tail_of, wish_numbered};
use executor::Manager;
use http_wire::Request;
use instance_table::InstanceRow;
use json_views::{instance_path, occurrence_path};
use site_traits::Site;
use std::alloc::{AllocError, Global};
use vnfm_base::{Bytes, Text};

/// The number of the manager of a trial.
pub const MANAGER: u32 = 1;

/// Live instances of a trial up to which one more is created.
const MOST_LIVE: u64 = 8;

/// Wishes among which one is drawn.
const WISHES: u64 = 10;

/// The least number that no identifier carries.
const PAST_IDENTIFIERS: u64 = 1 << 62;

/// What a step draws.
#[derive(Clone, Copy)]
pub struct Draw {
    /// The number that was drawn last.
    pub drawn: u64,
    /// What the step wishes for.
    pub wish: Wish,
    /// The number of the live instance that it is about, where one is live.
    pub chosen: Option<u64>,
}

/// What a step draws behind this number: a wish, and where an instance is live one of the live ones.
///
/// Source: own rule, docs/FORMATS.md, "The trial".
pub fn draw_step<S: Site>(manager: &Manager<S>, drawn: u64) -> Draw
    requires usable { manager.now.ledger.closed ≡ false }
    ensures { (H : List Event) → Keeps manager.now H → result ≡ draw_over H drawn }
{
    let first = next_drawn(drawn);
    let wish = wish_numbered(below(WISHES, first));
    let live = live(manager);
    if live == 0 {
        return Draw {
            drawn: first,
            wish,
            chosen: None,
        };
    }
    let second = next_drawn(first);
    Draw {
        drawn: second,
        wish,
        chosen: instance_at(manager, below(live, second)),
    }
}

/// How many instances are live.
fn live<S: Site>(manager: &Manager<S>) -> u64
    requires usable { manager.now.ledger.closed ≡ false }
    ensures { (H : List Event) → Keeps manager.now H → result ≡ length (instance_rows H) }
{
    manager.instances().instances().len() as u64
}

/// The number of the live instance at this place, from 0, in the order of their numbers.
fn instance_at<S: Site>(manager: &Manager<S>, place: u64) -> Option<u64>
    requires usable { manager.now.ledger.closed ≡ false }
    ensures { (H : List Event) → Keeps manager.now H
        → result ≡ option_map (λ r. r.number) (slice_get (instance_rows H) place) }
{
    number_at(manager.instances().instances(), place)
}

/// The number of the instance of the row at this place, from 0.
fn number_at(rows: &[InstanceRow], place: u64) -> Option<u64>
    ensures { result ≡ option_map (λ r. r.number) (slice_get rows.now place) }
{
    match rows.get(place as usize) {
        Some(row) => Some(row.number),
        None => None,
    }
}

/// The request of a wish, where there is one: to create an instance unless eight are live, or about the one that was
/// chosen, or the operation of it that goes on.
///
/// Condition: the manager isn't closed. `AllocError` is want of memory.
/// Source: SOL 003 5.3 (Resource structure and supported HTTP methods); own rule, docs/FORMATS.md, "The trial".
pub fn request_of<S: Site>(
    alloc: Global,
    manager: &Manager<S>,
    wish: Wish,
    chosen: Option<u64>,
) -> Result<Option<Request>, AllocError>
    requires usable { manager.now.ledger.closed ≡ false }
    ensures { (H : List Event) → Keeps manager.now H → IfOk result (λ request. request ≡ request_of wish H chosen) }
{
    match path_of(alloc, manager, wish, chosen)? {
        Some(path) => Ok(Some(request_at(alloc, wish, path)?)),
        None => Ok(None),
    }
}

/// The path of the resource that a wish is about.
fn path_of<S: Site>(
    alloc: Global,
    manager: &Manager<S>,
    wish: Wish,
    chosen: Option<u64>,
) -> Result<Option<String>, AllocError>
    requires usable { manager.now.ledger.closed ≡ false }
    ensures { (H : List Event) → Keeps manager.now H
        → IfOk result (λ path. option_map string_bytes path ≡ path_of wish H chosen) }
{
    match wish {
        Wish::Create => {
            if live(manager) >= MOST_LIVE {
                return Ok(None);
            }
            Ok(Some(String::from_str(alloc, "/vnflcm/v1/vnf_instances")?))
        }
        _ => match chosen {
            Some(instance) => path_about(alloc, manager, wish, instance),
            None => Ok(None),
        },
    }
}

/// The path of the instance, or of the operation of it that goes on, where one does.
fn path_about<S: Site>(
    alloc: Global,
    manager: &Manager<S>,
    wish: Wish,
    instance: u64,
) -> Result<Option<String>, AllocError>
    requires usable { manager.now.ledger.closed ≡ false }
    ensures { (H : List Event) → Keeps manager.now H
        → IfOk result (λ path. option_map string_bytes path ≡ path_about wish H instance) }
{
    if is_about_operation(wish) {
        return match manager.occurrences().ongoing(instance) {
            Some(occ) => Ok(Some(occurrence_path(alloc, MANAGER, identified(occ)?)?)),
            None => Ok(None),
        };
    }
    Ok(Some(instance_path(alloc, MANAGER, identified(instance)?)?))
}

/// The number, which an identifier carries: that of whatever was made does.
fn identified(number: u64) -> Result<u64, AllocError>
    ensures { IfOk result (λ n. (n ≡ number) × IsIdentNumber n) }
{
    if number == 0 || number >= PAST_IDENTIFIERS {
        return Err(AllocError);
    }
    Ok(number)
}

/// The request of a wish about the resource at this path.
fn request_at(alloc: Global, wish: Wish, path: String) -> Result<Request, AllocError>
    ensures { IfOk result (λ request. request ≡ request_at wish (string_bytes path)) }
{
    let mut target = path;
    target.push_str(tail_of(wish))?;
    let body = Bytes::of(alloc, body_of(wish).as_bytes())?;
    Ok(Request {
        method: method_of(wish),
        target: Text::of_string(target),
        media: None,
        body,
        last: false,
    })
}
