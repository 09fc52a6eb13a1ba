//! Standard input and output as a door with one connection.
ghost use Rattle.std.specs.Prelude.{◌≡◌, ◌≢◌, ◌≤◌, ◌<◌, ◌-◌, ◌^◌, [], IfOk, IfErr, false, true, length};
ghost use Rattle.std.specs.IoError.{error_kind};
ghost use Rattle.site_traits.specs.Door.{HangsUp, IsAmount, IsTaken, NextCause, Nexts, ReadCause, ReadsIn, WriteCause};
ghost use Rattle.site_traits.specs.Door.{WritesOut, asked_for, closed, write_counts};
ghost use Rattle.host_calls.specs.Streams.{Gives, Takes, fault_of};
ghost use Rattle.outside_edges.specs.Again.{MadeAgain, ReadsAgain, WritesAgain};
ghost use Rattle.outside_edges.specs.Door.{counted, state_of, IsDoor};

use crate::counted::{count_call, count_fault};
use host_calls::{InStream, OutStream};
use lcm_events::Role;
use site_traits::{Door, NextAnswer, ReadAnswer, WriteAnswer};
use std::io;
use std::io::ErrorKind;

/// One connection: its bytes in are those of a stream, its bytes out go to another.
#[derive(Drop)]
pub struct RealDoor<I: InStream, O: OutStream> {
    input: I,
    output: O,
    role: Role,
    came: bool,
    up: bool,
    ends: u64,
    read_failed: bool,
    write_failed: bool,
    faults: u64,
    next_faults: u64,
    writes: u64,
    short_writes: u64,
    ghost sound: { IsDoor I.tells O.tells came up ends read_failed write_failed (I.state input) (O.state output) },
}

impl<I: InStream, O: OutStream> RealDoor<I, O> {
    /// A door at which one connection of this role will come. Nothing was read of its stream or written to it yet.
    pub fn made(input: I, output: O, role: Role) -> RealDoor<I, O>
        requires unread { I.tells → (I.state input).left ≡ (I.state input).bytes }
        requires unwritten { O.tells → O.state output ≡ [] }
        ensures streams { (result.input ≡ input) × (result.output ≡ output) }
        ensures role { result.role ≡ role }
        ensures none { (result.came ≡ false) × (result.up ≡ false) }
        ensures counts { (result.faults ≡ 0) × (result.next_faults ≡ 0) }
        ensures unasked { (result.writes ≡ 0) × (result.short_writes ≡ 0) }
    {
        RealDoor {
            input,
            output,
            role,
            came: false,
            up: false,
            ends: 0,
            read_failed: false,
            write_failed: false,
            faults: 0,
            next_faults: 0,
            writes: 0,
            short_writes: 0,
        }
    }

    /// Whether a write on the connection failed.
    pub fn write_failed(&self) -> bool
        ensures { result ≡ self.now.write_failed }
    {
        self.write_failed
    }
}

impl<I: InStream, O: OutStream> Door for RealDoor<I, O> {
    ghost use Rattle.outside_edges.specs.Door.{counted, state_of};
    ghost use Rattle.site_traits.specs.Door.{write_counts};

    ghost tells = { I.tells × O.tells };

    ghost state = { λ d. state_of d.came d.role d.ends d.up d.read_failed d.write_failed (I.state d.input)
        (O.state d.output) };

    ghost counts = { λ d. counted d.faults d.next_faults d.up };

    ghost writes = { λ d. write_counts d.writes d.short_writes };

    fn next(&mut self) -> NextAnswer
        ensures first { self.old.came ≡ false → result ≡ NextAnswer.Came self.old.role }
        ensures later { self.old.came ≡ true → self.old.ends < 2 ^ 64 - 1 → result ≡ NextAnswer.Ended }
        ensures told { I.tells × O.tells → Nexts result (state_of self.old.came self.old.role self.old.ends self.old.up
            self.old.read_failed self.old.write_failed (I.state self.old.input) (O.state self.old.output))
            (state_of self.new.came self.new.role self.new.ends self.new.up self.new.read_failed self.new.write_failed
            (I.state self.new.input) (O.state self.new.output)) }
        ensures cause { NextCause result (counted self.old.faults self.old.next_faults self.old.up)
            (counted self.new.faults self.new.next_faults self.new.up) }
        ensures no_write { write_counts self.new.writes self.new.short_writes
            ≡ write_counts self.old.writes self.old.short_writes }
        ensures uncalled { (self.new.input ≡ self.old.input) × (self.new.output ≡ self.old.output) }
    {
        if !self.came {
            self.came = true;
            self.up = true;
            return NextAnswer::Came(self.role);
        }
        if self.ends == u64::MAX {
            count_fault(&mut self.faults);
            count_fault(&mut self.next_faults);
            return NextAnswer::Failed;
        }
        self.ends += 1;
        NextAnswer::Ended
    }

    fn read(&mut self, into: &mut [u8]) -> ReadAnswer
        requires some { 1 ≤ length into.old }
        requires up { self.old.up ≡ true }
        ensures amount { IsAmount result (length into.old) }
        ensures told { I.tells × O.tells → ReadsIn into.old into.new result
            (state_of self.old.came self.old.role self.old.ends self.old.up self.old.read_failed self.old.write_failed
            (I.state self.old.input) (O.state self.old.output))
            (state_of self.new.came self.new.role self.new.ends self.new.up self.new.read_failed self.new.write_failed
            (I.state self.new.input) (O.state self.new.output)) }
        ensures cause { ReadCause result (counted self.old.faults self.old.next_faults self.old.up)
            (counted self.new.faults self.new.next_faults self.new.up) }
        ensures no_write { write_counts self.new.writes self.new.short_writes
            ≡ write_counts self.old.writes self.old.short_writes }
        ensures again { I.tells → ReadsAgain (length into.old) result (I.calls self.old.input)
            (I.calls self.new.input) }
        ensures unwritten { self.new.output ≡ self.old.output }
    {
        match read_some(&mut self.input, into) {
            Ok(0) => ReadAnswer::End,
            Ok(count) => ReadAnswer::Got(count),
            Err(_) => {
                count_fault(&mut self.faults);
                self.read_failed = true;
                ReadAnswer::Failed
            }
        }
    }

    fn write(&mut self, bytes: &[u8]) -> WriteAnswer
        requires some { 1 ≤ length bytes.now }
        requires up { self.old.up ≡ true }
        ensures amount { IsTaken result (length bytes.now) }
        ensures told { I.tells × O.tells → WritesOut bytes.now result
            (state_of self.old.came self.old.role self.old.ends self.old.up self.old.read_failed self.old.write_failed
            (I.state self.old.input) (O.state self.old.output))
            (state_of self.new.came self.new.role self.new.ends self.new.up self.new.read_failed self.new.write_failed
            (I.state self.new.input) (O.state self.new.output)) }
        ensures cause { WriteCause result (counted self.old.faults self.old.next_faults self.old.up)
            (counted self.new.faults self.new.next_faults self.new.up) }
        ensures one { write_counts self.new.writes self.new.short_writes
            ≡ asked_for (length bytes.now) result (write_counts self.old.writes self.old.short_writes) }
        ensures again { O.tells → WritesAgain (length bytes.now) result (O.calls self.old.output)
            (O.calls self.new.output) }
        ensures unread { self.new.input ≡ self.old.input }
    {
        count_call(&mut self.writes);
        match write_some(&mut self.output, bytes) {
            Ok(count) if count > 0 => {
                if count < bytes.len() {
                    count_call(&mut self.short_writes);
                }
                WriteAnswer::Took(count)
            }
            _ => {
                count_fault(&mut self.faults);
                self.write_failed = true;
                WriteAnswer::Failed
            }
        }
    }

    fn hang_up(&mut self)
        requires up { self.old.up ≡ true }
        ensures told { I.tells × O.tells → HangsUp (state_of self.old.came self.old.role self.old.ends self.old.up
            self.old.read_failed self.old.write_failed (I.state self.old.input) (O.state self.old.output))
            (state_of self.new.came self.new.role self.new.ends self.new.up self.new.read_failed self.new.write_failed
            (I.state self.new.input) (O.state self.new.output)) }
        ensures cause { counted self.new.faults self.new.next_faults self.new.up
            ≡ closed (counted self.old.faults self.old.next_faults self.old.up) }
        ensures no_write { write_counts self.new.writes self.new.short_writes
            ≡ write_counts self.old.writes self.old.short_writes }
        ensures uncalled { (self.new.input ≡ self.old.input) × (self.new.output ≡ self.old.output) }
    {
        self.up = false;
    }
}

/// Reads once, and again where a signal interrupts the read.
fn read_some<I: InStream>(input: &mut I, into: &mut [u8]) -> io::Result<usize>
    ensures most { IfOk result (λ count. count ≤ length into.old) }
    ensures told { I.tells → Gives into.old into.new result (I.state input.old) (I.state input.new) }
    ensures again { IfErr result (λ fault. error_kind fault ≢ ErrorKind.Interrupted) }
    ensures calls { I.tells → MadeAgain (length into.old) (fault_of result) (I.calls input.old) (I.calls input.new) }
{
    for _turn in 0..u64::MAX {
        match input.read(into) {
            Err(fault) if fault.kind() == ErrorKind::Interrupted => {}
            answer => return answer,
        }
    }
    Err(io::Error::from(ErrorKind::Other))
}

/// Writes once, and again where a signal interrupts the write.
fn write_some<O: OutStream>(output: &mut O, bytes: &[u8]) -> io::Result<usize>
    ensures most { IfOk result (λ count. count ≤ length bytes.now) }
    ensures told { O.tells → Takes bytes.now result (O.state output.old) (O.state output.new) }
    ensures again { IfErr result (λ fault. error_kind fault ≢ ErrorKind.Interrupted) }
    ensures calls { O.tells → MadeAgain (length bytes.now) (fault_of result) (O.calls output.old) (O.calls output.new) }
{
    for _turn in 0..u64::MAX {
        match output.write(bytes) {
            Err(fault) if fault.kind() == ErrorKind::Interrupted => {}
            answer => return answer,
        }
    }
    Err(io::Error::from(ErrorKind::Other))
}
