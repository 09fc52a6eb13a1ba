//! The parts of events, put one after another.
ghost use Rattle.std.specs.Prelude.{◌≡◌};
ghost use Rattle.std.specs.List.{AllByRecursion};
ghost use Rattle.event_codec.specs.Numbers as number;
ghost use Rattle.event_codec.specs.Spell as spell;
ghost use Rattle.event_codec.specs.Typed.{TypedTag, TypedChange, TypedAim, TypedAsk, TypedOperation, TypedFilter};
ghost use Rattle.event_codec.specs.Typed.{TypedVdu, TypedPort, TypedRow, TypedAspect, TypedLevel, TypedLists};
ghost use Rattle.event_codec.specs.Typed.{TypedVnfd};
ghost use Rattle.event_codec.specs.Valid.{IsU8, IsU16, IsU32, IsAny, IsVnfc, IsAspectLevel, IsGrantTry, IsPlace};
ghost use Rattle.event_codec.specs.Valid.{IsOutcome, IsStorage, Optionally};
ghost use Rattle.event_codec.specs.Written.{put};
ghost use Rattle.vnfm_base.specs.Text.{IsName, IsLine};

use crate::numbers;
use crate::record_buf::RecordBuf;
use crate::write_lists::{Write, list, many, optional};
use lcm_events::{
    Aim, Ask, Aspect, AspectLevel, Change, Filter, GrantTry, Level, NoticeKind, OpState, Operation,
    OperationType, Outcome, Place, Port, Row, Storage, Tag, Vdu, Vnfc, Vnfd,
};
use vnfm_base::{Line, Name};

impl Write for u8 {
    ghost spell = { spell.u8 };

    ghost typed = { IsU8 };

    #[tactic(auto, using(crate::proofs::Puts::put_twice))]
    fn write(&self, out: &mut RecordBuf) {
        out.u8(*self);
    }
}

impl Write for u16 {
    ghost spell = { spell.u16 };

    ghost typed = { IsU16 };

    #[tactic(auto, using(crate::proofs::Puts::put_twice))]
    fn write(&self, out: &mut RecordBuf) {
        out.u16(*self);
    }
}

impl Write for u32 {
    ghost spell = { spell.u32 };

    ghost typed = { IsU32 };

    #[tactic(auto, using(crate::proofs::Puts::put_twice))]
    fn write(&self, out: &mut RecordBuf) {
        out.u32(*self);
    }
}

impl Write for Name {
    ghost spell = { spell.name };

    ghost typed = { IsName };

    #[tactic(auto, using(crate::proofs::Puts::put_twice))]
    fn write(&self, out: &mut RecordBuf) {
        out.name(self);
    }
}

impl Write for Line {
    ghost spell = { spell.line };

    ghost typed = { IsLine };

    #[tactic(auto, using(crate::proofs::Puts::put_twice))]
    fn write(&self, out: &mut RecordBuf) {
        out.line(self);
    }
}

impl Write for NoticeKind {
    ghost spell = { λ w. spell.u8 (number.notice_kind w) };

    ghost typed = { IsAny };

    #[tactic(auto, using(crate::proofs::Puts::put_twice))]
    fn write(&self, out: &mut RecordBuf) {
        out.u8(numbers::notice_kind(*self));
    }
}

impl Write for OperationType {
    ghost spell = { λ w. spell.u8 (number.operation_type w) };

    ghost typed = { IsAny };

    #[tactic(auto, using(crate::proofs::Puts::put_twice))]
    fn write(&self, out: &mut RecordBuf) {
        out.u8(numbers::operation_type(*self));
    }
}

impl Write for OpState {
    ghost spell = { λ w. spell.u8 (number.op_state w) };

    ghost typed = { IsAny };

    #[tactic(auto, using(crate::proofs::Puts::put_twice))]
    fn write(&self, out: &mut RecordBuf) {
        out.u8(numbers::op_state(*self));
    }
}

impl Write for Change {
    ghost spell = { spell.change };

    ghost typed = { TypedChange };

    #[tactic(auto, using(crate::proofs::Puts::put_twice))]
    fn write(&self, out: &mut RecordBuf) {
        out.u8(self.phase);
        out.u8(numbers::verb(self.verb));
        out.u8(numbers::def_kind(self.def.kind));
        out.u16(self.def.item);
        out.u16(self.def.vdu);
        out.u32(self.def.serial);
    }
}

impl Write for Vnfc {
    ghost spell = { spell.vnfc };

    ghost typed = { IsVnfc };

    #[tactic(auto, using(crate::proofs::Puts::put_twice))]
    fn write(&self, out: &mut RecordBuf) {
        out.u16(self.vdu);
        out.u32(self.serial);
    }
}

impl Write for AspectLevel {
    ghost spell = { spell.aspect_level };

    ghost typed = { IsAspectLevel };

    #[tactic(auto, using(crate::proofs::Puts::put_twice))]
    fn write(&self, out: &mut RecordBuf) {
        out.name(&self.aspect);
        out.u32(self.level);
    }
}

impl Write for Place {
    ghost spell = { spell.place };

    ghost typed = { IsPlace };

    #[tactic(auto, using(crate::proofs::Puts::put_twice))]
    fn write(&self, out: &mut RecordBuf) {
        out.name(&self.vim);
        out.name(&self.zone);
    }
}

impl Write for Vdu {
    ghost spell = { spell.vdu };

    ghost typed = { TypedVdu };

    #[tactic(auto, using(crate::proofs::Puts::put_twice))]
    fn write(&self, out: &mut RecordBuf) {
        out.name(&self.name);
        out.u64(self.memory);
        out.u32(self.cpus);
        out.u32(self.maximum);
        out.u32(self.initial);
        many(out, &self.storages);
    }
}

impl Write for Storage {
    ghost spell = { spell.storage };

    ghost typed = { IsStorage };

    #[tactic(auto, using(crate::proofs::Puts::put_twice))]
    fn write(&self, out: &mut RecordBuf) {
        out.name(&self.name);
        out.u64(self.size);
    }
}

impl Write for Port {
    ghost spell = { spell.port };

    ghost typed = { TypedPort };

    #[tactic(auto, using(crate::proofs::Puts::put_twice))]
    fn write(&self, out: &mut RecordBuf) {
        out.name(&self.name);
        out.u16(self.vdu);
        link(out, self.link);
    }
}

impl Write for Row {
    ghost spell = { spell.row };

    ghost typed = { TypedRow };

    #[tactic(auto, using(crate::proofs::Puts::put_twice))]
    fn write(&self, out: &mut RecordBuf) {
        out.u16(self.vdu);
        list(out, &[], self.deltas.as_slice());
    }
}

impl Write for Aspect {
    ghost spell = { spell.aspect };

    ghost typed = { TypedAspect };

    #[tactic(auto, using(crate::proofs::Puts::put_twice))]
    fn write(&self, out: &mut RecordBuf) {
        out.name(&self.name);
        out.u32(self.maximum);
        out.u16(self.steps);
        many(out, &self.rows);
    }
}

impl Write for Level {
    ghost spell = { spell.level };

    ghost typed = { TypedLevel };

    #[tactic(auto, using(crate::proofs::Puts::put_twice))]
    fn write(&self, out: &mut RecordBuf) {
        out.name(&self.name);
        list(out, &[], self.numbers.as_slice());
    }
}

/// The number of a port's link; 65,535 stands for none.
fn link(out: &mut RecordBuf, link: Option<u16>)
    ensures spelled { out.new ≡ put out.old (spell.link link) }
    ensures typed { Optionally IsU16 link }
{
    match link {
        None => out.u16(65_535),
        Some(number) => out.u16(number),
    }
}

#[tactic(auto, using(crate::proofs::Puts::put_twice))]
pub(crate) fn tag(out: &mut RecordBuf, tag: &Tag)
    ensures spelled { out.new ≡ put out.old (spell.tag tag.now) }
    ensures typed { TypedTag tag.now }
{
    out.u64(tag.occ);
    out.u16(tag.change);
    out.u32(tag.attempt);
    out.u8(numbers::way(tag.way));
}

#[tactic(auto, using(crate::proofs::Puts::put_twice))]
fn aim(out: &mut RecordBuf, aim: &Aim)
    ensures spelled { out.new ≡ put out.old (spell.aim aim.now) }
    ensures typed { TypedAim aim.now }
{
    match aim {
        Aim::Level(level) => {
            out.u8(0);
            out.name(level);
        }
        Aim::Aspects(aspects) => {
            out.u8(1);
            many(out, aspects);
        }
    }
}

#[tactic(auto, using(crate::proofs::Puts::put_twice))]
fn ask(out: &mut RecordBuf, ask: &Ask)
    ensures spelled { out.new ≡ put out.old (spell.ask ask.now) }
    ensures typed { TypedAsk ask.now }
{
    match ask {
        Ask::Instantiate { flavour, level } => {
            out.u8(1);
            out.name(flavour);
            optional(out, level);
        }
        Ask::Scale { way, aspect, steps } => {
            out.u8(2);
            out.u8(numbers::scale_way(*way));
            out.name(aspect);
            out.u32(*steps);
        }
        Ask::ScaleToLevel(to) => {
            out.u8(3);
            aim(out, to);
        }
        Ask::Heal { cause, named } => {
            out.u8(4);
            optional(out, cause);
            many(out, named);
        }
        Ask::Operate { started, stop } => {
            out.u8(5);
            out.u8(numbers::started(*started));
            out.u8(numbers::stop_type(*stop));
        }
        Ask::Terminate { mode, timeout } => {
            out.u8(6);
            out.u8(numbers::terminate_mode(*mode));
            optional(out, timeout);
        }
    }
}

#[tactic(auto, using(crate::proofs::Puts::put_twice))]
pub(crate) fn operation(out: &mut RecordBuf, operation: &Operation)
    ensures spelled { out.new ≡ put out.old (spell.operation operation.now) }
    ensures typed { TypedOperation operation.now }
{
    out.u64(operation.occ);
    out.u64(operation.instance);
    out.u8(numbers::role(operation.role));
    ask(out, &operation.ask);
    many(out, &operation.changes);
}

#[tactic(auto, using(crate::proofs::Puts::put_twice))]
pub(crate) fn grant_try(out: &mut RecordBuf, answer: &GrantTry)
    ensures spelled { out.new ≡ put out.old (spell.grant_try answer.now) }
    ensures typed { IsGrantTry answer.now }
{
    match answer {
        GrantTry::Later(location) => {
            out.u8(0);
            out.line(location);
        }
        GrantTry::Trouble => out.u8(1),
        GrantTry::NotCovering => out.u8(2),
    }
}

#[tactic(auto, using(crate::proofs::Puts::put_twice))]
pub(crate) fn outcome(out: &mut RecordBuf, outcome: &Outcome)
    ensures spelled { out.new ≡ put out.old (spell.outcome outcome.now) }
    ensures typed { IsOutcome outcome.now }
{
    match outcome {
        Outcome::Done(resource) => {
            out.u8(0);
            out.name(resource);
        }
        Outcome::Broken(code) => {
            out.u8(1);
            out.u32(*code);
        }
        Outcome::Aborted => out.u8(2),
        Outcome::NotBegun => out.u8(3),
    }
}

#[tactic(auto, using(crate::proofs::Puts::put_twice))]
pub(crate) fn filter(out: &mut RecordBuf, filter: &Filter)
    ensures spelled { out.new ≡ put out.old (spell.filter filter.now) }
    ensures typed { TypedFilter filter.now }
{
    many(out, &filter.vnfds);
    many(out, &filter.instances);
    many(out, &filter.names);
    many(out, &filter.notices);
    many(out, &filter.operations);
    many(out, &filter.states);
}

#[tactic(auto, using(crate::proofs::Puts::put_twice))]
pub(crate) fn vnfd(out: &mut RecordBuf, vnfd: &Vnfd)
    ensures spelled { out.new ≡ put out.old (spell.vnfd vnfd.now) }
    ensures typed { TypedVnfd vnfd.now }
{
    out.name(&vnfd.descriptor_id);
    out.name(&vnfd.provider);
    out.name(&vnfd.product_name);
    out.name(&vnfd.software_version);
    out.name(&vnfd.descriptor_version);
    out.name(&vnfd.flavour_id);
    vnfd_lists(out, vnfd);
}

/// What stands behind the names of a descriptor.
#[tactic(auto, using(crate::proofs::Puts::put_twice))]
fn vnfd_lists(out: &mut RecordBuf, vnfd: &Vnfd)
    ensures spelled { out.new ≡ put out.old (spell.vnfd_lists vnfd.now) }
    ensures typed { TypedLists vnfd.now }
{
    many(out, &vnfd.vdus);
    many(out, &vnfd.storages);
    many(out, &vnfd.links);
    many(out, &vnfd.ports);
    many(out, &vnfd.aspects);
    many(out, &vnfd.levels);
    out.u16(vnfd.default_level);
}
