//! Values that stand in several fields, one after another.
ghost use Rattle.std.specs.Prelude.{◌≡◌, ◌<◌, ◌^◌, List, ℕ, ◌++◌, ◌∷◌, [], IfSome, Some, decimal};
ghost use Rattle.vim_wire.specs.Lines.{name_field, way_word, verb_word, kind_word};
ghost use Rattle.vnfm_base.specs.Text.{IsName};

use crate::fields::{kind, name, number, verb, way};
use crate::parts::Parts;
use lcm_events::{DefKind, Verb, Way};
use vnfm_base::Name;

/// What stands in one field or in several.
pub(crate) trait Read: Sized {
    // its fields
    ghost fields: { Self → List (List ℕ) };
    // it has such
    ghost fits: { Self → Type 0 };

    /// The value whose fields stand at the front, and are taken.
    fn read(parts: &mut Parts) -> Option<Self>
        ensures found { IfSome result (λ value. fits value × (parts.old ≡ fields value ++ parts.new)) }
        ensures again { (value : Self) (rest : List (List ℕ)) → fits value → parts.old ≡ fields value ++ rest
            → (result ≡ Some value) × (parts.new ≡ rest) };
}

impl<A: Read + Drop, B: Read> Read for (A, B) {
    ghost fields = { λ p. A.fields p.0 ++ B.fields p.1 };

    ghost fits = { λ p. A.fits p.0 × B.fits p.1 };

    fn read(parts: &mut Parts) -> Option<(A, B)> {
        let first = A::read(parts)?;
        let second = B::read(parts)?;
        Some((first, second))
    }
}

impl Read for u64 {
    ghost fields = { λ n. decimal n ∷ [] };

    ghost fits = { λ n. n < 2 ^ 64 };

    fn read(parts: &mut Parts) -> Option<u64> {
        number(parts.next()?)
    }
}

impl Read for u32 {
    ghost fields = { λ n. decimal n ∷ [] };

    ghost fits = { λ n. n < 2 ^ 32 };

    fn read(parts: &mut Parts) -> Option<u32> {
        let number = number(parts.next()?)?;
        u32::try_from(number).ok()
    }
}

impl Read for u16 {
    ghost fields = { λ n. decimal n ∷ [] };

    ghost fits = { λ n. n < 2 ^ 16 };

    fn read(parts: &mut Parts) -> Option<u16> {
        let number = number(parts.next()?)?;
        u16::try_from(number).ok()
    }
}

impl Read for Name {
    ghost fields = { λ n. name_field n ∷ [] };

    ghost fits = { IsName };

    fn read(parts: &mut Parts) -> Option<Name> {
        name(parts.next()?)
    }
}

impl Read for Verb {
    ghost fields = { λ v. verb_word v ∷ [] };

    ghost fits = { λ v. Unit {0} };

    fn read(parts: &mut Parts) -> Option<Verb> {
        verb(parts.next()?)
    }
}

impl Read for DefKind {
    ghost fields = { λ k. kind_word k ∷ [] };

    ghost fits = { λ k. Unit {0} };

    fn read(parts: &mut Parts) -> Option<DefKind> {
        kind(parts.next()?)
    }
}

impl Read for Way {
    ghost fields = { λ w. way_word w ∷ [] };

    ghost fits = { λ w. Unit {0} };

    fn read(parts: &mut Parts) -> Option<Way> {
        way(parts.next()?)
    }
}
