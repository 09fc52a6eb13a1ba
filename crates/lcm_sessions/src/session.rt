//! Serving one connection: its requests are heard, answered and told one by one, and the connection ends.
ghost use Rattle.std.specs.Prelude.{◌≡◌, ◌≤◌, ◌∷◌, List, Some, is_some, true};
ghost use Rattle.std.specs.Result.{is_err};
ghost use Rattle.executor.specs.Managed.{IsReady};
ghost use Rattle.http_wire.specs.declared.request.Request.{Request};
ghost use Rattle.lcm_sessions.specs.Session.{Answers, Closing, Talk};
ghost use Rattle.lcm_mouth.specs.Mouth.{OnlyAtDoor};
ghost use Rattle.lcm_sessions.specs.Step.{GoesOn, IsAbout, IsOrStarved, IsStep, Responds, TellsLast};
ghost use Rattle.lcm_mouth.specs.World.{telling, world};
ghost use Rattle.lcm_sessions.specs.Talking.{IsRejection, Serves, Talks};
ghost use Rattle.lcm_events.specs.declared.events.Event.{Event};
ghost use Rattle.site_traits.specs.Counts.{OnlyDiskFails};

use executor::{Manager, what_was_told_of_stays, works_add_up};
use lcm_api::{ApiFault, WireFault, answer};
use lcm_events::Role;
use lcm_mouth::Mouth;
use lcm_replies::{DoorFailed, Reply, bare, malformed, too_large};
use site_traits::{Clock, Door, Site};
use std::alloc::{AllocError, Global};
use vnfm_base::Moment;

/// The disk failed, and the manager is closed. Whether the last request's event is kept is known once the journal is
/// loaded again.
#[derive(Clone, Copy)]
pub struct Closed;

/// What came of one step of a session.
#[derive(Clone, Copy)]
pub enum Step {
    /// A request was answered, its reply was told whole, and the session goes on.
    Told,
    /// The session is over, and what was to be told then was told whole.
    ToldLast,
    /// The session is over: nothing was to be told then, or it couldn't be told whole.
    Over,
    /// The disk failed.
    Broken,
}

/// Serves the connection at hand for this role: answers its requests one by one until its bytes end, its last request
/// was answered, the bytes that are left are no request, a read or a write fails, or there is no memory; then it ends
/// the connection. The answer is the number of replies that were told whole.
///
/// Where the bytes that are left are no request, 400 or 413 is told; for want of memory 503; where the disk failed 500.
/// The door counts one fault where a read failed and one where telling did, each of which ends the session, and else
/// none. From the moment at which a reply was told on, whenever a stop comes, it leaves the history that the reply
/// tells of, or more. Conditions: the connection is up; the manager isn't closed, and its file has its history.
/// Refusal: `Closed` exactly where the disk failed in this call.
/// Source: SOL 003 4.3 (API structure), 5.4.2; RFC 9112 9.3, 9.6.
pub fn answer_session<S: Site, D: Door, K: Clock>(
    alloc: Global,
    manager: &mut Manager<S>,
    site: &mut S,
    mouth: &mut Mouth<D>,
    clock: &mut K,
    role: Role,
) -> Result<u32, Closed>
    requires up { mouth.old.wire.intake.counts.up ≡ true }
    requires ready { (H : List Event) × IsReady S.tells manager.old H (S.state site.old) }
    ensures serves { (H : List Event) → IsReady S.tells manager.old H (S.state site.old) → (talk : Talk)
        × Serves (telling S.tells D.tells K.tells) manager.old.ledger.manager manager.old.ledger.saved H talk
        manager.new
        (world (S.state site.old) mouth.old (K.state clock.old))
        (world (S.state site.new) mouth.new (K.state clock.new))
        × (talk.role ≡ role) × Answers talk result }
    ensures counts { OnlyDiskFails (is_err result ≡ true) (S.counts site.old) (S.counts site.new) }
{
    let answer = talk(alloc, manager, site, mouth, clock, role);
    mouth.hang_up();
    answer
}

/// Answers the requests of the connection at hand, one by one.
fn talk<S: Site, D: Door, K: Clock>(
    alloc: Global,
    manager: &mut Manager<S>,
    site: &mut S,
    mouth: &mut Mouth<D>,
    clock: &mut K,
    role: Role,
) -> Result<u32, Closed>
    requires up { mouth.old.wire.intake.counts.up ≡ true }
    requires ready { (H : List Event) × IsReady S.tells manager.old H (S.state site.old) }
    ensures talks { (H : List Event) → IsReady S.tells manager.old H (S.state site.old)
        → (talk : Talk) × (end : Closing) × (talk.end ≡ Some end)
        × Talks (telling S.tells D.tells K.tells) manager.old.ledger.manager manager.old.ledger.saved H talk manager.new
        (world (S.state site.old) mouth.old (K.state clock.old))
        (world (S.state site.new) mouth.new (K.state clock.new))
        × (talk.role ≡ role) × Answers talk result }
    ensures role { mouth.new.role ≡ role }
    ensures up { mouth.new.wire.intake.counts.up ≡ true }
    ensures counts { OnlyDiskFails (is_err result ≡ true) (S.counts site.old) (S.counts site.new) }
{
    works_add_up::<S>();
    what_was_told_of_stays::<S>();
    let mut told = 0;
    'steps: loop {
        match answer_next(alloc, manager, site, mouth, clock, role) {
            Step::Told => told += 1,
            Step::ToldLast => return Ok(told + 1),
            Step::Over => return Ok(told),
            Step::Broken => return Err(Closed),
        }
    }
}

/// Hears the next request and answers it, or ends the session.
fn answer_next<S: Site, D: Door, K: Clock>(
    alloc: Global,
    manager: &mut Manager<S>,
    site: &mut S,
    mouth: &mut Mouth<D>,
    clock: &mut K,
    role: Role,
) -> Step
    requires up { mouth.old.wire.intake.counts.up ≡ true }
    requires ready { (H : List Event) × IsReady S.tells manager.old H (S.state site.old) }
    ensures talks { (H : List Event) → IsReady S.tells manager.old H (S.state site.old) → (talk : Talk)
        × Talks (telling S.tells D.tells K.tells) manager.old.ledger.manager manager.old.ledger.saved H talk manager.new
        (world (S.state site.old) mouth.old (K.state clock.old))
        (world (S.state site.new) mouth.new (K.state clock.new))
        × IsStep role talk result }
    ensures role { mouth.new.role ≡ role }
    ensures on { GoesOn result mouth.old mouth.new }
    ensures up { mouth.new.wire.intake.counts.up ≡ true }
    ensures counts { OnlyDiskFails (result ≡ Step.Broken) (S.counts site.old) (S.counts site.new) }
{
    works_add_up::<S>();
    what_was_told_of_stays::<S>();
    match mouth.hear(alloc, role) {
        Ok(true) => respond(alloc, manager, site, mouth, clock),
        Ok(false) => Step::Over,
        Err(fault) => match rejection(alloc, fault) {
            Some(reply) => tell_last(manager, site, mouth, &reply),
            None => Step::Over,
        },
    }
}

/// Answers the request in hand, and tells the reply.
fn respond<S: Site, D: Door, K: Clock>(
    alloc: Global,
    manager: &mut Manager<S>,
    site: &mut S,
    mouth: &mut Mouth<D>,
    clock: &mut K,
) -> Step
    requires up { mouth.old.wire.intake.counts.up ≡ true }
    requires in_hand { is_some mouth.old.hand ≡ true }
    requires ready { (H : List Event) × IsReady S.tells manager.old H (S.state site.old) }
    ensures responds { (H : List Event) → IsReady S.tells manager.old H (S.state site.old) → (r : Request)
        → mouth.old.hand ≡ Some r → (talk : Talk)
        × Responds (telling S.tells D.tells K.tells) manager.old.ledger.manager manager.old.ledger.saved H talk
        manager.new
        (world (S.state site.old) mouth.old (K.state clock.old))
        (world (S.state site.new) mouth.new (K.state clock.new))
        × IsAbout r talk × IsStep mouth.old.role talk result }
    ensures kept { OnlyAtDoor mouth.old mouth.new }
    ensures up { mouth.new.wire.intake.counts.up ≡ true }
    ensures counts { OnlyDiskFails (result ≡ Step.Broken) (S.counts site.old) (S.counts site.new) }
{
    works_add_up::<S>();
    what_was_told_of_stays::<S>();
    let now = Moment::of(clock.now());
    match answer(
        alloc,
        manager,
        site,
        mouth.routes(),
        mouth.role(),
        mouth.request(),
        now,
    ) {
        Ok(reply) => match mouth.tell(manager, site, &reply) {
            Ok(()) => Step::Told,
            Err(DoorFailed) => Step::Over,
        },
        Err(ApiFault::Disk) => {
            let _ = mouth.tell(manager, site, &bare(alloc, 500));
            Step::Broken
        }
        Err(ApiFault::Memory) => tell_last(manager, site, mouth, &bare(alloc, 503)),
    }
}

/// What is told where the bytes that are left are no request, for this cause.
fn rejection(alloc: Global, fault: WireFault) -> Option<Reply>
    ensures { IsRejection fault result }
{
    match fault {
        WireFault::Malformed => Some(or_starved(alloc, malformed(alloc))),
        WireFault::TooLarge => Some(or_starved(alloc, too_large(alloc))),
        WireFault::Unfinished => None,
        WireFault::Read => None,
        WireFault::Memory => Some(bare(alloc, 503)),
    }
}

/// The reply, or, where there was no memory for it, that there is none.
fn or_starved(alloc: Global, reply: Result<Reply, AllocError>) -> Reply
    ensures { IsOrStarved reply result }
{
    match reply {
        Ok(reply) => reply,
        Err(AllocError) => bare(alloc, 503),
    }
}

/// Tells a refusal at the end of a session.
fn tell_last<S: Site, D: Door>(
    manager: &Manager<S>,
    site: &S,
    mouth: &mut Mouth<D>,
    reply: &Reply,
) -> Step
    requires up { mouth.old.wire.intake.counts.up ≡ true }
    requires refusal { 400 ≤ reply.now.status }
    ensures told { TellsLast D.tells reply.now result mouth.old mouth.new }
    ensures kept { OnlyAtDoor mouth.old mouth.new }
    ensures noted { mouth.new.told ≡ (S.state site.now).moment ∷ mouth.old.told }
{
    match mouth.tell(manager, site, reply) {
        Ok(()) => Step::ToldLast,
        Err(DoorFailed) => Step::Over,
    }
}
