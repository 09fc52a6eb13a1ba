//! The bytes that are still to be read: numbers, names, lines, options and lists are taken from their front.
ghost use Rattle.std.specs.Prelude.{◌≡◌, ℕ, ◌==◌, List, Option, length};
ghost use Rattle.event_codec.specs.Combinators.{u8_at, piece};
ghost use Rattle.event_codec.specs.Gives.{Gives, GivesNow, GivesText};
ghost use Rattle.event_codec.specs.Readers.{u16_at, u32_at, u64_at, name_at, line_at};

use crate::fault::DecodeFault;
use std::alloc::Global;
use std::marker::Model;
use vnfm_base::{Line, LineFault, Name};

/// The bytes that are still to be read. A contract sees them as a list.
#[derive(Drop)]
pub(crate) struct Input<'a> {
    rest: &'a [u8],
}

impl<'a> Model for Input<'a> {
    ghost use Rattle.std.specs.Prelude.{ℕ, List};

    ghost Value = { List ℕ };

    ghost view = { λ i. i.rest.now };
}

impl<'a> Input<'a> {
    /// All of these bytes.
    pub(crate) fn new(bytes: &'a [u8]) -> Input<'a>
        ensures { result ≡ bytes.now }
    {
        Input { rest: bytes }
    }

    /// Whether nothing is left.
    pub(crate) fn is_empty(&self) -> bool
        ensures { result ≡ (length self.now == 0) }
    {
        self.rest.is_empty()
    }

    /// The next `n` bytes.
    pub(crate) fn piece(&mut self, n: usize) -> Result<&'a [u8], DecodeFault>
        ensures { GivesNow self.new result (piece n self.old) }
    {
        if self.rest.len() < n {
            return Err(DecodeFault::NotEvent);
        }
        let (piece, rest) = self.rest.split_at(n);
        self.rest = rest;
        Ok(piece)
    }

    pub(crate) fn u8(&mut self) -> Result<u8, DecodeFault>
        ensures { Gives self.new result (u8_at self.old) }
    {
        let [n, rest @ ..] = self.rest else {
            return Err(DecodeFault::NotEvent);
        };
        let n = *n;
        self.rest = rest;
        Ok(n)
    }

    #[tactic(auto, unfolding(crate::specs::Readers::u16_at))]
    pub(crate) fn u16(&mut self) -> Result<u16, DecodeFault>
        ensures { Gives self.new result (u16_at self.old) }
    {
        let bytes = self.piece(2)?;
        Ok(u16::from_be_bytes([bytes[0], bytes[1]]))
    }

    #[tactic(auto, unfolding(crate::specs::Readers::u32_at))]
    pub(crate) fn u32(&mut self) -> Result<u32, DecodeFault>
        ensures { Gives self.new result (u32_at self.old) }
    {
        let bytes = self.piece(4)?;
        Ok(u32::from_be_bytes([bytes[0], bytes[1], bytes[2], bytes[3]]))
    }

    #[tactic(auto, unfolding(crate::specs::Readers::u64_at))]
    pub(crate) fn u64(&mut self) -> Result<u64, DecodeFault>
        ensures { Gives self.new result (u64_at self.old) }
    {
        let bytes = self.piece(8)?;
        Ok(u64::from_be_bytes([
            bytes[0], bytes[1], bytes[2], bytes[3], bytes[4], bytes[5], bytes[6], bytes[7],
        ]))
    }

    #[tactic(auto, unfolding(crate::specs::Readers::name_at))]
    pub(crate) fn name(&mut self) -> Result<Name, DecodeFault>
        ensures { Gives self.new result (name_at self.old) }
    {
        let n = self.u8()?;
        let bytes = self.piece(n as usize)?;
        name_of(bytes)
    }

    #[tactic(auto, unfolding(crate::specs::Readers::line_at))]
    pub(crate) fn line(&mut self, alloc: Global) -> Result<Line, DecodeFault>
        ensures { Gives self.new result (line_at self.old) }
    {
        let n = self.u16()?;
        let bytes = self.piece(n as usize)?;
        line_of(alloc, bytes)
    }
}

/// The name of these bytes, if they are one.
#[tactic(auto, using(vnfm_base::proofs::TextTests::short_texts))]
fn name_of(bytes: &[u8]) -> Result<Name, DecodeFault>
    ensures { GivesText 255 bytes.now result }
{
    match Name::of(bytes) {
        Some(name) => Ok(name),
        None => Err(DecodeFault::NotEvent),
    }
}

/// The line of these bytes, if they are one.
#[tactic(auto, using(vnfm_base::proofs::TextTests::short_texts))]
fn line_of(alloc: Global, bytes: &[u8]) -> Result<Line, DecodeFault>
    ensures { GivesText 2048 bytes.now result }
{
    match Line::of(alloc, bytes) {
        Ok(line) => Ok(line),
        Err(LineFault::NotLine) => Err(DecodeFault::NotEvent),
        Err(LineFault::Memory) => Err(DecodeFault::Memory),
    }
}
