//! The table: a row for each occurrence, in the order of their numbers.

ghost use Rattle.occ_table.specs.declared.rows.Grant.{Grant};
ghost use Rattle.std.specs.Prelude.{◌≡◌, ◌-◌, ◌<◌, ◌≤◌, ℕ, List, [], ◌++◌, ◌∷◌, Some, None, true, false, find, nat_lt};
ghost use Rattle.std.specs.Prelude.{length, option_copied, slice_get, IsOk, OnOk, vec_len, vec_capacity};
ghost use Rattle.lcm_events.specs.declared.attempts.Outcome.TheVariants.{Done};
ghost use Rattle.lcm_events.specs.declared.changes.Def.{Def};
ghost use Rattle.lcm_events.specs.declared.events.EventKind.TheVariants.{GrantTried, Settled};
ghost use Rattle.lcm_model.specs.Attempts.{is_done};
ghost use Rattle.lcm_model.specs.Operations.{occurrence_of};
ghost use Rattle.occ_table.specs.Descriptors.{numbered, vnfd_in};
ghost use Rattle.occ_table.specs.Going.{Rises, active_moved};
ghost use Rattle.occ_table.specs.Ongoing.{instance_in, ongoing_in, ongoing_moved, with_ongoing};
ghost use Rattle.occ_table.specs.Steps.{described, first_row, noted, row_after, rows_about, update, after_granted};
ghost use Rattle.occ_table.specs.Steps.{after_told, is_bringing, is_later};
ghost use Rattle.occ_table.specs.Resources.{deed_of, kept_moved, kept_of, learned, used_after};
ghost use Rattle.occ_table.specs.Rows.{StandsFor};
ghost use Rattle.occ_table.specs.Table.{Applies, Counts, Follows, GoesOn, HasNames, HasRoom, HasRoomFor, IsKept};
ghost use Rattle.occ_table.specs.Table.{IsTableOf, Knows, Looks, Occurrences, Reserved, needs_room};

use crate::going::{append, first_above, move_active, reserve_places};
use crate::ongoing::{instance_of, move_ongoing, ongoing_at, set_ongoing};
use crate::resources::{DoneAttempt, Resources};
use crate::rooms::Rooms;
use crate::rows::{Grant, OccRow};
use crate::slots::Slot;
use crate::used::{PackedUsed, Used};
use crate::vnfds::Vnfds;
use lcm_events::{
    Def, Event, EventKind, GrantTry, Listed, OpState, Operation, Outcome, Place, Tag,
};
use lcm_model::ends;
use std::alloc::{AllocError, Global};
use std::marker::Model;
use vnfm_base::{Line, Moment, Name};

/// The table of occurrences.
///
/// A contract sees its rows, which occurrences are active, which operation of each instance goes on, which resource
/// each definition has that stands or is in work, and what is reserved for an event.
/// Each row has a place among the active numbers, so that a move needs no memory, and until its occurrence is over room
/// for four open attempts, so that an attempt needs none to begin.

pub struct OccTable {
    rows: Vec<Slot>,
    active: Vec<u64>,
    ongoing: Vec<Option<u64>>,
    vnfds: Vnfds,
    resources: Resources,
    row: Option<Slot>,
    grant: Option<Grant>,
    location: Option<Line>,
    names: Rooms,
}

impl Drop for OccTable {
    // Written out, so that the proof of a caller calls it and doesn't take the table apart at each of its ends.
    fn drop(self) {
        let OccTable {
            rows: _,
            active: _,
            ongoing: _,
            vnfds: _,
            resources: _,
            row: _,
            grant: _,
            location: _,
            names: _,
        } = self;
    }
}

impl Model for OccTable {
    ghost use Rattle.std.specs.Prelude.{◌-◌, ◌≤◌, vec_len, vec_capacity};
    ghost use Rattle.occ_table.specs.Table.{Occurrences};

    ghost Value = { Occurrences };

    ghost view = { λ t. record {
      rows = t.rows.items;
      active = t.active.items;
      ongoing = t.ongoing.items;
      vnfds =
          t.vnfds.vnfds;
      resources = t.resources.entries;
      reserved =
          record {
            row = t.row;
            grant = t.grant;
            location = t.location;
            spare = vec_capacity t.rows - vec_len t.rows;
            places = vec_capacity t.active - vec_len t.rows;
            instances = vec_capacity t.ongoing - vec_len t.ongoing;
            names =
                t.vnfds.spare;
            resources = t.resources.spare;
            made_names = t.resources.room;
            used_names = t.names;
          };
    } };

    ghost invariant = { λ t. vec_len t.rows ≤ vec_capacity t.active };
}

/// The number of the occurrence that an event is about.
fn occurrence_in(kind: &EventKind) -> Option<u64>
    ensures { result ≡ occurrence_of kind.now }
{
    match kind {
        EventKind::GrantTried { occ, .. } => Some(*occ),
        EventKind::Granted { occ, .. } => Some(*occ),
        EventKind::Denied { occ } => Some(*occ),
        EventKind::Intent(tag) => Some(tag.occ),
        EventKind::CallFailed(tag) => Some(tag.occ),
        EventKind::Settled { tag, .. } => Some(tag.occ),
        EventKind::Moved { occ, .. } => Some(*occ),
        EventKind::CancelAsked { occ, .. } => Some(*occ),
        _ => None,
    }
}

/// Lets the row at this place follow an event of this moment. Nothing happens beyond the end.
fn follow_at(rows: &mut Vec<Slot>, at: usize, moment: Moment, kind: &EventKind)
    requires { is_bringing kind.now ≡ false }
    ensures items { rows.new.items ≡ update (row_after moment None kind.now) at rows.old.items }
    ensures length { vec_len rows.new ≡ vec_len rows.old }
    ensures capacity { vec_capacity rows.new ≡ vec_capacity rows.old }
{
    match rows.get_mut(at) {
        Some(row) => row.follow(moment, kind),
        None => {}
    }
}

/// Gives the row at this place its grant. Nothing happens beyond the end.
fn grant_at(rows: &mut Vec<Slot>, at: usize, grant: Grant)
    ensures items { rows.new.items ≡ update (after_granted grant) at rows.old.items }
    ensures length { vec_len rows.new ≡ vec_len rows.old }
{
    match rows.get_mut(at) {
        Some(row) => row.take_grant(grant),
        None => {}
    }
}

/// Tells the row at this place where its grant will be. Nothing happens beyond the end.
fn tell_at(rows: &mut Vec<Slot>, at: usize, location: Line)
    ensures items { rows.new.items ≡ update (after_told location) at rows.old.items }
    ensures length { vec_len rows.new ≡ vec_len rows.old }
{
    match rows.get_mut(at) {
        Some(row) => row.take_location(location),
        None => {}
    }
}

/// Notes in the row at this place what its change of this number used. Nothing happens beyond the end.
fn note_at(rows: &mut Vec<Slot>, at: usize, change: u16, used: PackedUsed)
    ensures items { rows.new.items ≡ update (noted change (Some used)) at rows.old.items }
    ensures length { vec_len rows.new ≡ vec_len rows.old }
{
    match rows.get_mut(at) {
        Some(row) => row.note(change, used),
        None => {}
    }
}

/// The row of the occurrence of this number, where there is one.
fn row_of(rows: &[Slot], occ: u64) -> Option<&OccRow>
    ensures { option_copied result ≡ numbered occ rows.now }
{
    if occ == 0 {
        return None;
    }
    match rows.get((occ - 1) as usize) {
        Some(slot) => Some(slot.row()),
        None => None,
    }
}

/// The row with the descriptor of its instance, in room that is laid aside: no memory is taken.
fn described(row: Slot, names: &mut Rooms, vnfd: &Name) -> Slot
    requires { 765 ≤ names.old }
    ensures { result ≡ described vnfd.now row }
{
    let mut row = row;
    match names.pack(vnfd) {
        Some(vnfd) => row.describe(vnfd),
        None => unreachable!(),
    }
    row
}

/// What an attempt did that was done with this name, by the row of its occurrence.
fn deed_of(rows: &[Slot], tag: &Tag, resource: Name) -> Option<DoneAttempt>
    ensures { result ≡ deed_of tag.now (Done resource) rows.now }
{
    match row_of(rows, tag.occ) {
        Some(row) => row.deed(tag, resource),
        None => None,
    }
}

/// Whether an answer tells where the grant will be.
fn is_later(answer: &GrantTry) -> bool
    ensures { result ≡ is_later answer.now }
{
    match answer {
        GrantTry::Later(_) => true,
        GrantTry::Trouble | GrantTry::NotCovering => false,
    }
}

impl OccTable {
    /// A table with no row, which takes no memory until something is reserved.
    pub fn new(alloc: Global) -> Self
        ensures table { IsTableOf result [] }
        ensures row { result.reserved.row ≡ None }
        ensures grant { result.reserved.grant ≡ None }
        ensures location { result.reserved.location ≡ None }
    {
        OccTable {
            rows: Vec::new(alloc),
            active: Vec::new(alloc),
            ongoing: Vec::new(alloc),
            vnfds: Vnfds::new(alloc),
            resources: Resources::new(alloc),
            row: None,
            grant: None,
            location: None,
            names: Rooms::new(),
        }
    }

    /// Reserves what the row of an operation needs that is asked for at this moment.
    fn reserve_row(
        &mut self,
        alloc: Global,
        moment: Moment,
        operation: &Operation,
    ) -> Result<(), AllocError>
        ensures kept { self.new ≡ record self.old { reserved = self.new.reserved } }
        ensures row { OnOk result (self.new.reserved.row ≡ Some (first_row moment operation.now)) }
        ensures spare { OnOk result (0 < self.new.reserved.spare) }
        ensures places { OnOk result (0 < self.new.reserved.places) }
        ensures names { OnOk result (765 ≤ self.new.reserved.used_names) }
    {
        self.names.reserve(alloc)?;
        self.rows.reserve(1)?;
        let rows = self.rows.len() + 1;
        reserve_places(&mut self.active, rows)?;
        let row = Slot::first(alloc, moment, operation)?;
        self.row = Some(row);
        Ok(())
    }

    /// Reserves a grant.
    fn reserve_grant(
        &mut self,
        alloc: Global,
        name: Name,
        places: &Listed<Place>,
        spots: &Listed<u8>,
    ) -> Result<(), AllocError>
        ensures kept { self.new ≡ record self.old { reserved = self.new.reserved } }
        ensures grant { OnOk result (self.new.reserved.grant
            ≡ Some (record { name = name; places = places.now; spots = spots.now })) }
    {
        let grant = Grant::copied(alloc, name, places.as_slice(), spots.as_slice())?;
        self.grant = Some(grant);
        Ok(())
    }

    /// Reserves the location of a grant.
    fn reserve_location(&mut self, location: &Line) -> Result<(), AllocError>
        ensures kept { self.new ≡ record self.old { reserved = self.new.reserved } }
        ensures location { OnOk result (self.new.reserved.location ≡ Some location.now) }
    {
        let location = location.clone()?;
        self.location = Some(location);
        Ok(())
    }

    /// Reserves a place for an instance.
    fn reserve_instance(&mut self) -> Result<(), AllocError>
        ensures kept { self.new ≡ record self.old { reserved = self.new.reserved } }
        ensures instances { OnOk result (0 < self.new.reserved.instances) }
        ensures names { OnOk result (0 < self.new.reserved.names) }
    {
        self.ongoing.reserve(1)?;
        self.vnfds.reserve()
    }

    /// Reserves a place for what an attempt did, whatever the name is of what it made.
    fn reserve_done(&mut self, alloc: Global) -> Result<(), AllocError>
        ensures kept { self.new ≡ record self.old { resources = self.new.resources; reserved = self.new.reserved } }
        ensures resources { (i : ℕ) (x : Def) → kept_of self.new.resources i x ≡ kept_of self.old.resources i x }
        ensures room { OnOk result (HasNames (Done []) self.new.reserved) }
    {
        self.resources.reserve(alloc)?;
        self.names.reserve(alloc)
    }

    /// Reserves the memory that an event needs, so that `apply` takes none. All else stays, also after an error, which
    /// never comes for an event that needs no memory.
    ///
    /// Source: own rule.
    pub fn reserve_for(&mut self, alloc: Global, e: &Event) -> Result<(), AllocError>
        ensures kept { self.new ≡ record self.old { resources = self.new.resources; reserved = self.new.reserved } }
        ensures resources { (i : ℕ) (x : Def) → kept_of self.new.resources i x ≡ kept_of self.old.resources i x }
        ensures room { OnOk result (HasRoom e.now self.new.reserved) }
        ensures free { needs_room e.now.kind ≡ false → IsOk result }
        ensures stays { needs_room e.now.kind ≡ false → self.new.reserved ≡ self.old.reserved }
    {
        match &e.kind {
            EventKind::Created { .. } => self.reserve_instance(),
            EventKind::Asked(operation) => self.reserve_row(alloc, e.moment, operation),
            EventKind::Granted {
                grant,
                places,
                spots,
                ..
            } => self.reserve_grant(alloc, *grant, places, spots),
            EventKind::GrantTried {
                answer: GrantTry::Later(location),
                ..
            } => self.reserve_location(location),
            EventKind::Settled {
                outcome: Outcome::Done(_),
                ..
            } => self.reserve_done(alloc),
            _ => Ok(()),
        }
    }

    /// Puts the reserved grant into the row of its occurrence.
    fn put_grant(&mut self, occ: u64)
        ensures active { self.new.active ≡ self.old.active }
        ensures ongoing { self.new.ongoing ≡ self.old.ongoing }
        ensures vnfds { self.new.vnfds ≡ self.old.vnfds }
        ensures resources { self.new.resources ≡ self.old.resources }
        ensures rows { (g : Grant) → self.old.reserved.grant ≡ Some g → 1 ≤ occ
            → self.new.rows ≡ update (after_granted g) (occ - 1) self.old.rows }
    {
        if let Some(grant) = self.grant.take() {
            if occ > 0 {
                grant_at(&mut self.rows, (occ - 1) as usize, grant);
            }
        }
    }

    /// Puts the reserved location into the row of its occurrence.
    fn put_location(&mut self, occ: u64)
        ensures active { self.new.active ≡ self.old.active }
        ensures ongoing { self.new.ongoing ≡ self.old.ongoing }
        ensures vnfds { self.new.vnfds ≡ self.old.vnfds }
        ensures resources { self.new.resources ≡ self.old.resources }
        ensures rows { (at : List ℕ) → self.old.reserved.location ≡ Some at → 1 ≤ occ
            → self.new.rows ≡ update (after_told at) (occ - 1) self.old.rows }
    {
        if let Some(location) = self.location.take() {
            if occ > 0 {
                tell_at(&mut self.rows, (occ - 1) as usize, location);
            }
        }
    }

    /// Puts an instance of this descriptor last, which has no ongoing operation.
    fn put_instance(&mut self, vnfd: Name)
        requires instances { 0 < self.old.reserved.instances }
        requires names { 0 < self.old.reserved.names }
        ensures rows { self.new.rows ≡ self.old.rows }
        ensures active { self.new.active ≡ self.old.active }
        ensures ongoing { self.new.ongoing ≡ self.old.ongoing ++ None ∷ [] }
        ensures vnfds { self.new.vnfds ≡ self.old.vnfds ++ vnfd ∷ [] }
        ensures resources { self.new.resources ≡ self.old.resources }
    {
        self.ongoing.push_reserved(None);
        self.vnfds.push(vnfd);
    }

    /// Puts the reserved row last, and its number last among the active ones: it is the ongoing operation of its
    /// instance.
    fn put_row(&mut self, occ: u64, instance: u64)
        requires spare { 0 < self.old.reserved.spare }
        requires places { 0 < self.old.reserved.places }
        requires names { 765 ≤ self.old.reserved.used_names }
        ensures rows { (r : OccRow) → self.old.reserved.row ≡ Some r
            → self.new.rows ≡ self.old.rows ++ described (vnfd_in instance self.old.vnfds) r ∷ [] }
        ensures active { length self.old.active ≤ length self.old.rows → self.new.active ≡ self.old.active ++ occ ∷ [] }
        ensures ongoing { self.new.ongoing ≡ with_ongoing instance (Some occ) self.old.ongoing }
        ensures vnfds { self.new.vnfds ≡ self.old.vnfds }
        ensures resources { self.new.resources ≡ self.old.resources }
    {
        let vnfd = self.vnfds.at(instance);
        if let Some(row) = self.row.take() {
            self.rows
                .push_reserved(described(row, &mut self.names, &vnfd));
        }
        append(&mut self.active, occ);
        set_ongoing(&mut self.ongoing, instance, Some(occ));
    }

    /// Lets the row of an occurrence follow its move, and the active numbers and the ongoing operations too.
    fn follow_move(&mut self, moment: Moment, occ: u64, to: OpState, kind: &EventKind)
        requires { is_bringing kind.now ≡ false }
        ensures numbered { 1 ≤ occ → self.new.rows ≡ update (row_after moment None kind.now) (occ - 1) self.old.rows }
        ensures active { length (active_moved occ to self.old.active) ≤ length self.old.rows
            → self.new.active ≡ active_moved occ to self.old.active }
        ensures ongoing { self.new.ongoing ≡ ongoing_moved (instance_in occ self.old.rows) to self.old.ongoing }
        ensures vnfds { self.new.vnfds ≡ self.old.vnfds }
        ensures resources { (i : ℕ) (x : Def) → kept_of self.new.resources i x
            ≡ kept_moved to (numbered occ self.old.rows) (kept_of self.old.resources) i x }
        ensures reserved { IsKept self.old.reserved self.new.reserved }
    {
        self.forget_where_over(occ, to);
        let instance = instance_of(self.rows.as_slice(), occ);
        if occ > 0 {
            follow_at(&mut self.rows, (occ - 1) as usize, moment, kind);
        }
        move_active(&mut self.active, occ, to);
        move_ongoing(&mut self.ongoing, instance, to);
    }

    /// Forgets what was kept for an occurrence alone, where it moves to a final state: the definitions of its changes
    /// that don't stand.
    fn forget_where_over(&mut self, occ: u64, to: OpState)
        ensures kept { self.new ≡ record self.old { resources = self.new.resources; reserved = self.new.reserved } }
        ensures resources { (i : ℕ) (x : Def) → kept_of self.new.resources i x
            ≡ kept_moved to (numbered occ self.old.rows) (kept_of self.old.resources) i x }
        ensures reserved { IsKept self.old.reserved self.new.reserved }
    {
        if ends(to) {
            if let Some(row) = row_of(self.rows.as_slice(), occ) {
                self.resources.forget_gone_of(row);
            }
        }
    }

    /// Lets the row of an occurrence follow an event of this moment.
    fn follow(&mut self, occ: u64, moment: Moment, kind: &EventKind)
        requires low { 1 ≤ occ }
        requires nothing_brought { is_bringing kind.now ≡ false }
        ensures rows { self.new.rows ≡ update (row_after moment None kind.now) (occ - 1) self.old.rows }
        ensures active { self.new.active ≡ self.old.active }
        ensures ongoing { self.new.ongoing ≡ self.old.ongoing }
        ensures vnfds { self.new.vnfds ≡ self.old.vnfds }
        ensures resources { self.new.resources ≡ self.old.resources }
        ensures reserved { self.new.reserved ≡ self.old.reserved }
    {
        follow_at(&mut self.rows, (occ - 1) as usize, moment, kind);
    }

    /// Lets the row of the occurrence that an event of this moment is about follow it.
    fn follow_about(&mut self, moment: Moment, kind: &EventKind)
        requires { is_bringing kind.now ≡ false }
        ensures numbered { (n : ℕ) → occurrence_of kind.now ≡ Some n → 1 ≤ n
            → self.new.rows ≡ rows_about (occurrence_of kind.now) moment None kind.now self.old.rows }
        ensures none { occurrence_of kind.now ≡ None → self.new.rows ≡ self.old.rows }
        ensures active { self.new.active ≡ self.old.active }
        ensures ongoing { self.new.ongoing ≡ self.old.ongoing }
        ensures vnfds { self.new.vnfds ≡ self.old.vnfds }
        ensures resources { self.new.resources ≡ self.old.resources }
        ensures reserved { self.new.reserved ≡ self.old.reserved }
    {
        match occurrence_in(kind) {
            Some(occ) => {
                if occ > 0 {
                    self.follow(occ, moment, kind);
                }
            }
            None => {}
        }
    }

    /// Lets the row of an occurrence follow a try of its grant exchange.
    fn follow_try(&mut self, moment: Moment, occ: u64, answer: &GrantTry, kind: &EventKind)
        requires { kind.now ≡ GrantTried occ answer.now }
        ensures numbered { HasRoomFor moment kind.now self.old.reserved → 1 ≤ occ
            → self.new.rows ≡ update (row_after moment None kind.now) (occ - 1) self.old.rows }
        ensures active { self.new.active ≡ self.old.active }
        ensures ongoing { self.new.ongoing ≡ self.old.ongoing }
        ensures vnfds { self.new.vnfds ≡ self.old.vnfds }
        ensures resources { self.new.resources ≡ self.old.resources }
        ensures reserved { needs_room kind.now ≡ false → self.new.reserved ≡ self.old.reserved }
    {
        if is_later(answer) {
            self.put_location(occ);
        } else {
            self.follow_about(moment, kind);
        }
    }

    /// The change of this number of an occurrence has used this last, or nothing new.
    fn note(&mut self, occ: u64, change: u16, used: &Option<Used>)
        requires { 765 ≤ self.old.reserved.used_names }
        ensures rows { 1 ≤ occ → self.new.rows ≡ update (noted change used.now) (occ - 1) self.old.rows }
        ensures active { self.new.active ≡ self.old.active }
        ensures ongoing { self.new.ongoing ≡ self.old.ongoing }
        ensures vnfds { self.new.vnfds ≡ self.old.vnfds }
        ensures resources { self.new.resources ≡ self.old.resources }
    {
        match used {
            Some(used) => self.put_used(occ, change, used),
            None => {}
        }
    }

    /// Puts what the change of this number of an occurrence has used last into the reserved text, and that into its
    /// row.
    fn put_used(&mut self, occ: u64, change: u16, used: &Used)
        requires { 765 ≤ self.old.reserved.used_names }
        ensures rows { 1 ≤ occ → self.new.rows ≡ update (noted change (Some used.now)) (occ - 1) self.old.rows }
        ensures active { self.new.active ≡ self.old.active }
        ensures ongoing { self.new.ongoing ≡ self.old.ongoing }
        ensures vnfds { self.new.vnfds ≡ self.old.vnfds }
        ensures resources { self.new.resources ≡ self.old.resources }
    {
        if let Some(names) = self.names.take(used.names_len()) {
            let used = PackedUsed::of(names, used);
            if occ > 0 {
                note_at(&mut self.rows, (occ - 1) as usize, change, used);
            }
        }
    }

    /// Learns what an attempt did that was done with this name, and tells what its change used.
    fn take_deed(&mut self, tag: &Tag, resource: Name) -> Option<Used>
        requires { HasNames (Done resource) self.old.reserved }
        ensures used { result ≡ used_after (deed_of tag.now (Done resource) self.old.rows)
            (kept_of self.old.resources) }
        ensures rows { self.new.rows ≡ self.old.rows }
        ensures active { self.new.active ≡ self.old.active }
        ensures ongoing { self.new.ongoing ≡ self.old.ongoing }
        ensures vnfds { self.new.vnfds ≡ self.old.vnfds }
        ensures resources { (i : ℕ) (x : Def) → kept_of self.new.resources i x
            ≡ learned (deed_of tag.now (Done resource) self.old.rows) (kept_of self.old.resources) i x }
        ensures names { self.new.reserved.used_names ≡ self.old.reserved.used_names }
    {
        let deed = deed_of(self.rows.as_slice(), tag, resource);
        self.resources.take(&deed)
    }

    /// Lets the row of an occurrence follow the end of an attempt that was done with this name.
    fn follow_done(&mut self, moment: Moment, tag: &Tag, resource: Name, kind: &EventKind)
        requires kind { kind.now ≡ Settled tag.now (Done resource) }
        requires room { HasNames (Done resource) self.old.reserved }
        ensures rows { 1 ≤ tag.now.occ → self.new.rows ≡ update
            (row_after moment (used_after (deed_of tag.now (Done resource) self.old.rows) (kept_of self.old.resources))
            kind.now) (tag.now.occ - 1) self.old.rows }
        ensures active { self.new.active ≡ self.old.active }
        ensures ongoing { self.new.ongoing ≡ self.old.ongoing }
        ensures vnfds { self.new.vnfds ≡ self.old.vnfds }
        ensures resources { (i : ℕ) (x : Def) → kept_of self.new.resources i x
            ≡ learned (deed_of tag.now (Done resource) self.old.rows) (kept_of self.old.resources) i x }
    {
        let used = self.take_deed(tag, resource);
        self.follow_about(moment, kind);
        self.note(tag.occ, tag.change, &used);
    }

    /// Lets the row of an occurrence follow the end of an attempt.
    fn follow_end(&mut self, moment: Moment, tag: &Tag, outcome: &Outcome, kind: &EventKind)
        requires kind { kind.now ≡ Settled tag.now outcome.now }
        requires room { HasNames outcome.now self.old.reserved }
        ensures rows { 1 ≤ tag.now.occ → self.new.rows ≡ update
            (row_after moment (used_after (deed_of tag.now outcome.now self.old.rows) (kept_of self.old.resources))
            kind.now) (tag.now.occ - 1) self.old.rows }
        ensures active { self.new.active ≡ self.old.active }
        ensures ongoing { self.new.ongoing ≡ self.old.ongoing }
        ensures vnfds { self.new.vnfds ≡ self.old.vnfds }
        ensures resources { (i : ℕ) (x : Def) → kept_of self.new.resources i x
            ≡ learned (deed_of tag.now outcome.now self.old.rows) (kept_of self.old.resources) i x }
        ensures reserved { is_done outcome.now ≡ false → self.new.reserved ≡ self.old.reserved }
    {
        match outcome {
            Outcome::Done(resource) => self.follow_done(moment, tag, *resource, kind),
            _ => self.follow_about(moment, kind),
        }
    }

    /// Lets the rows follow an event, from what is reserved for it: no memory is taken.
    ///
    /// Source: own rule.
    pub fn apply(&mut self, e: &Event)
        requires room { HasRoom e.now self.old.reserved }
        ensures applies { Applies e.now self.old self.new }
        ensures stays { needs_room e.now.kind ≡ false → IsKept self.old.reserved self.new.reserved }
    {
        match &e.kind {
            EventKind::Created { vnfd, .. } => self.put_instance(*vnfd),
            EventKind::Asked(operation) => self.put_row(operation.occ, operation.instance),
            EventKind::Granted { occ, .. } => self.put_grant(*occ),
            EventKind::GrantTried { occ, answer } => {
                self.follow_try(e.moment, *occ, answer, &e.kind);
            }
            EventKind::Moved { occ, to } => self.follow_move(e.moment, *occ, *to, &e.kind),
            EventKind::Settled { tag, outcome } => {
                self.follow_end(e.moment, tag, outcome, &e.kind);
            }
            kind => self.follow_about(e.moment, kind),
        }
    }

    /// The row at this place.
    fn row_at(&self, at: u64) -> Option<&OccRow>
        ensures { option_copied result ≡ slice_get self.now.rows at }
    {
        match self.rows.get(at as usize) {
            Some(slot) => Some(slot.row()),
            None => None,
        }
    }

    /// The row of the occurrence of this number; none exactly where there is no occurrence of that number at all.
    ///
    /// Source: SOL 003 5.4.13 (Individual VNF LCM operation occurrence).
    pub fn occurrence(&self, n: u64) -> Option<&OccRow>
        ensures looks { Looks n (option_copied result) self.now.rows }
    {
        if n == 0 {
            return None;
        }
        self.row_at(n - 1)
    }

    /// The least number above this one of an occurrence that the manager works on; none exactly where there is none.
    ///
    /// Source: SOL 003 5.6.2 (States and state transitions of a VNF LCM operation occurrence).
    pub fn next_active(&self, after: u64) -> Option<u64>
        ensures follows { Follows after result self.now.active }
    {
        self.first_above(after)
    }

    /// The first active number above this one, where they rise.
    fn first_above(&self, after: u64) -> Option<u64>
        ensures { Rises self.now.active → result ≡ find (λ n. nat_lt after n) self.now.active }
    {
        first_above(self.active.as_slice(), after)
    }

    /// The number of the instance's ongoing operation; none exactly where it has none.
    ///
    /// Source: SOL 003 5.6.2 (States and state transitions of a VNF LCM operation occurrence).
    pub fn ongoing(&self, instance: u64) -> Option<u64>
        ensures goes_on { GoesOn instance result self.now.ongoing }
    {
        self.ongoing_at(instance)
    }

    /// The entry of an instance among the ongoing operations.
    fn ongoing_at(&self, instance: u64) -> Option<u64>
        ensures { result ≡ ongoing_in instance self.now.ongoing }
    {
        ongoing_at(self.ongoing.as_slice(), instance)
    }

    /// The resource that a definition of an instance has, with its place, or had before the operation removed it that
    /// goes on; none where it doesn't stand and no operation that goes on did anything to it.
    ///
    /// Source: SOL 003 5.5.3 (the resource infos of an instance).
    pub fn resource(&self, instance: u64, def: &Def) -> Option<Used>
        ensures knows { Knows instance def.now result self.now }
    {
        self.resources.of(instance, def)
    }

    /// How many operations were asked for.
    ///
    /// Source: SOL 003 5.4.12 (VNF LCM operation occurrences).
    pub fn made(&self) -> u64
        ensures made { Counts result self.now.rows }
    {
        self.rows.len() as u64
    }
}
