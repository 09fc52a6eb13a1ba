//! Two addresses as a door, at which the requests of many clients come as the bytes of one connection.
ghost use Rattle.std.specs.Prelude.{◌≡◌, ◌≤◌, IfOk, false, length, true};
ghost use Rattle.site_traits.specs.Counts.{one_more};
ghost use Rattle.site_traits.specs.Door.{HangsUp, IsAmount, IsTaken, NextCause, Nexts, ReadCause, ReadsIn, WriteCause};
ghost use Rattle.site_traits.specs.Door.{WritesOut, asked_for, closed, write_counts};
ghost use Rattle.net_door.specs.Told.{counts_of, nothing_told};

use crate::yard::{Begun, Yard};
use edge_limits::{Pace, Pulse};
use net_calls::{ClientNet, Stopwatch};
use site_traits::{Door, NextAnswer, ReadAnswer, WriteAnswer};
use std::alloc::{AllocError, Global};
use std::cell::Cell;

/// Two addresses at which clients come: the orchestrator's and the element manager's. What it hands in as a connection
/// has the whole requests of many clients, one after another, each answered to the client that sent it. It tells
/// nothing, since its connections are none of the network's.
///
/// Source: own rule.
#[derive(Drop)]
pub struct GatheringDoor<'a, N: ClientNet + Drop, T: Stopwatch + Drop> {
    yard: Yard<N, T>,
    pulse: &'a Cell<Pulse>,
    pace: &'a Cell<Pace>,
    up: bool,
    faults: u64,
    next_faults: u64,
    writes: u64,
    short_writes: u64,
}

impl<'a, N: ClientNet + Drop, T: Stopwatch + Drop> GatheringDoor<'a, N, T> {
    /// A door at no address yet, at which each `next` fails. When a round is due is what `pace` says of the rounds
    /// before, which it renews; that something was recorded is what `pulse` says. Its one refusal is want of memory.
    pub fn made(
        alloc: Global,
        net: N,
        watch: T,
        pulse: &'a Cell<Pulse>,
        pace: &'a Cell<Pace>,
    ) -> Result<GatheringDoor<'a, N, T>, AllocError>
        ensures objects { IfOk result (λ d. (d.yard.net ≡ net) × (d.yard.watch ≡ watch)) }
        ensures counts { IfOk result (λ d. (d.faults ≡ 0) × (d.next_faults ≡ 0) × (d.up ≡ false)) }
        ensures unasked { IfOk result (λ d. (d.writes ≡ 0) × (d.short_writes ≡ 0)) }
    {
        Ok(GatheringDoor {
            yard: Yard::new(alloc, net, watch)?,
            pulse,
            pace,
            up: false,
            faults: 0,
            next_faults: 0,
            writes: 0,
            short_writes: 0,
        })
    }

    /// The network.
    pub fn net(&self) -> &N
        ensures { result.now ≡ self.now.yard.net }
    {
        self.yard.net()
    }

    /// Listens at the orchestrator's address and at the element manager's. Whether both could be had; where not, each
    /// `next` fails.
    pub fn listen(&mut self, orchestrator: &str, element: &str) -> bool
        ensures counts { (self.new.faults ≡ self.old.faults) × (self.new.next_faults ≡ self.old.next_faults)
            × (self.new.up ≡ self.old.up) }
        ensures no_write { (self.new.writes ≡ self.old.writes) × (self.new.short_writes ≡ self.old.short_writes) }
    {
        self.yard.listen(orchestrator, element)
    }
}

/// One more. A count stays at its greatest value.
fn count_one(count: &mut u64)
    ensures one { count.new ≡ one_more count.old }
    ensures later { count.old ≤ count.new }
{
    *count = count.saturating_add(1);
}

/// Milliseconds until the next round is due by what was done, which begins anew, and whether a pause runs.
fn take_rest(pulse: &Cell<Pulse>, pace: &Cell<Pace>) -> (u32, bool) {
    let done = pace.get();
    pace.set(done.renewed());
    let noted = pulse.get();
    pulse.set(noted.renewed());
    (done.due(), done.is_paused())
}

/// Whether something was recorded since that was asked last.
fn take_recorded(pulse: &Cell<Pulse>, pace: &Cell<Pace>) -> bool {
    let mut noted = pulse.get();
    if !noted.acted {
        return false;
    }
    noted.acted = false;
    pulse.set(noted);
    let mut done = pace.get();
    done.went_on = false;
    pace.set(done);
    true
}

impl<'a, N: ClientNet + Drop, T: Stopwatch + Drop> Door for GatheringDoor<'a, N, T> {
    ghost use Rattle.net_door.specs.Told.{counts_of, nothing_told};
    ghost use Rattle.site_traits.specs.Door.{write_counts};

    ghost tells = { ⊥ };

    ghost state = { λ _. nothing_told };

    ghost counts = { λ d. counts_of d.faults d.next_faults d.up };

    ghost writes = { λ d. write_counts d.writes d.short_writes };

    fn next(&mut self) -> NextAnswer {
        let (wait, paused) = take_rest(self.pulse, self.pace);
        self.yard.rest(wait, paused);
        match self.yard.begin() {
            Begun::Came(role) => {
                self.up = true;
                NextAnswer::Came(role)
            }
            Begun::Nobody => NextAnswer::Nobody,
            Begun::Shut => {
                count_one(&mut self.faults);
                count_one(&mut self.next_faults);
                NextAnswer::Failed
            }
        }
    }

    fn read(&mut self, into: &mut [u8]) -> ReadAnswer {
        match self.yard.read(into) {
            Some(count) => ReadAnswer::Got(count),
            None => ReadAnswer::End,
        }
    }

    fn write(&mut self, bytes: &[u8]) -> WriteAnswer {
        count_one(&mut self.writes);
        self.yard.write(bytes);
        if take_recorded(self.pulse, self.pace) {
            self.yard.hurry();
        }
        WriteAnswer::Took(bytes.len())
    }

    fn hang_up(&mut self) {
        self.yard.end();
        self.up = false;
        // What a session recorded without an answer is no act of a round.
        let _ = take_recorded(self.pulse, self.pace);
    }
}
