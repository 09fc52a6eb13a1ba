//! Options and lists, put entry by entry.
ghost use Rattle.std.specs.Prelude.{◌≡◌, List, ◌++◌, ℕ};
ghost use Rattle.std.specs.List.{AllByRecursion, flat_map};
ghost use Rattle.event_codec.specs.Spell.{optional, many, few, u8};
ghost use Rattle.event_codec.specs.Valid.{Optionally};
ghost use Rattle.event_codec.specs.Written.{put};

use crate::record_buf::RecordBuf;
use lcm_events::Listed;

/// What can stand in an option or a list.
pub(crate) trait Write {
    // its bytes
    ghost spell: { Self → List ℕ };
    // what its type says of it
    ghost typed: { Self → Type 0 };

    fn write(&self, out: &mut RecordBuf)
        ensures spelled { out.new ≡ put out.old (spell self.now) }
        ensures typed { typed self.now };
}

/// A value that may lack.
#[tactic(auto, using(crate::proofs::Puts::put_twice))]
pub(crate) fn optional<T: Write>(out: &mut RecordBuf, value: &Option<T>)
    ensures spelled { out.new ≡ put out.old (optional T.spell value.now) }
    ensures typed { Optionally T.typed value.now }
{
    match value {
        None => out.u8(0),
        Some(value) => {
            out.u8(1);
            value.write(out);
        }
    }
}

/// A list, its length in two bytes before it.
#[tactic(auto, using(crate::proofs::Puts::count_2), unfolding(crate::specs::Spell::u16))]
pub(crate) fn many<T: Write>(out: &mut RecordBuf, items: &Listed<T>)
    ensures spelled { out.new ≡ put out.old (many T.spell items.now) }
    ensures typed { AllByRecursion T.typed items.now }
{
    let count = (items.len() % 65_536) as u16;
    list(out, &count.to_be_bytes(), items.as_slice());
}

/// A short list, its length in one byte before it.
#[tactic(auto, using(crate::proofs::Puts::count_1))]
pub(crate) fn few<T: Write>(out: &mut RecordBuf, items: &Listed<T>)
    ensures spelled { out.new ≡ put out.old (few T.spell items.now) }
    ensures typed { AllByRecursion T.typed items.now }
{
    let count = (items.len() % 256) as u8;
    list(out, &count.to_be_bytes(), items.as_slice());
}

/// Some bytes, then the entries.
#[tactic(auto, using(crate::proofs::Puts::put_twice))]
pub(crate) fn list<T: Write>(out: &mut RecordBuf, head: &[u8], items: &[T])
    ensures spelled { out.new ≡ put out.old (head.now ++ flat_map T.spell items.now) }
    ensures typed { AllByRecursion T.typed items.now }
{
    out.put(head);
    for item in items {
        item.write(out);
    }
}
