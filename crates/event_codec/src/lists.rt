//! Options and lists of what has one reader.
ghost use Rattle.std.specs.Prelude.{◌≡◌, ℕ, List, [], ◌∷◌, ◌++◌, Option, OnOk, IfErr};
ghost use Rattle.event_codec.specs.Combinators.{entries};
ghost use Rattle.event_codec.specs.Gives.{Gives};
ghost use Rattle.event_codec.specs.Readers.{optional_at, many_at, few_at};

use crate::fault::DecodeFault;
use crate::input::Input;
use lcm_events::Listed;
use std::alloc::Global;

/// What can stand in an option or a list.
pub(crate) trait Read: Drop {
    // what stands at the front of some bytes, where an entry has so many numbers
    ghost at: { ℕ → List ℕ → Option (Self × List ℕ) };

    /// The entry at the front of the input. `numbers` says how many numbers it has, where it doesn't say so itself.
    fn read(alloc: Global, input: &mut Input, numbers: usize) -> Result<Self, DecodeFault>
        ensures { Gives input.new result (at numbers input.old) };
}

/// A value that may lack.
#[tactic(auto, unfolding(crate::specs::Readers::optional_at))]
pub(crate) fn optional<T: Read>(alloc: Global, input: &mut Input) -> Result<Option<T>, DecodeFault>
    ensures { Gives input.new result (optional_at (T.at 0) input.old) }
{
    match input.u8()? {
        0 => Ok(None),
        1 => Ok(Some(T::read(alloc, input, 0)?)),
        _ => Err(DecodeFault::NotEvent),
    }
}

/// A list whose length stands before it in two bytes.
#[tactic(auto, unfolding(crate::specs::Readers::many_at))]
pub(crate) fn many<T: Read>(
    alloc: Global,
    input: &mut Input,
    numbers: usize,
) -> Result<Listed<T>, DecodeFault>
    ensures { Gives input.new result (many_at (T.at numbers) input.old) }
{
    let count = input.u16()?;
    entries(alloc, input, count as usize, numbers)
}

/// A list of at most 32 entries, whose length stands before it in one byte.
#[tactic(auto, unfolding(crate::specs::Readers::few_at))]
pub(crate) fn few<T: Read>(alloc: Global, input: &mut Input) -> Result<Listed<T>, DecodeFault>
    ensures { Gives input.new result (few_at (T.at 0) input.old) }
{
    let count = input.u8()?;
    if count > 32 {
        return Err(DecodeFault::NotEvent);
    }
    entries(alloc, input, count as usize, 0)
}

/// So many entries.
pub(crate) fn entries<T: Read>(
    alloc: Global,
    input: &mut Input,
    count: usize,
    numbers: usize,
) -> Result<Listed<T>, DecodeFault>
    ensures { Gives input.new result (entries (T.at numbers) count input.old) }
{
    let mut items = Listed::new(alloc);
    for counter in 0..count {
        match T::read(alloc, input, numbers) {
            Ok(item) => put(&mut items, item)?,
            Err(fault) => return Err(fault),
        }
    }
    Ok(items)
}

/// Puts an entry last.
fn put<T: Drop>(items: &mut Listed<T>, item: T) -> Result<(), DecodeFault>
    ensures ok { OnOk result (items.new ≡ items.old ++ item ∷ []) }
    ensures memory { IfErr result (λ fault. fault ≡ DecodeFault.Memory) }
{
    match items.push(item) {
        Ok(()) => Ok(()),
        Err(_) => Err(DecodeFault::Memory),
    }
}
