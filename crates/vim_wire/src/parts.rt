//! The parts of some bytes, as they stand between separators.
ghost use Rattle.std.specs.Prelude.{◌≡◌, ◌∷◌, [], MatchOption};
ghost use Rattle.vim_wire.specs.Parts.{parts_of};

use std::marker::Model;

/// The parts that are still to be taken. A contract sees them as a list.
#[derive(Drop)]
pub(crate) struct Parts<'a> {
    separator: u8,
    rest: Option<&'a [u8]>,
}

impl<'a> Model for Parts<'a> {
    ghost use Rattle.std.specs.Prelude.{ℕ, List};
    ghost use Rattle.vim_wire.specs.Parts.{parts_left};

    ghost Value = { List (List ℕ) };

    ghost view = { λ p. parts_left p.separator p.rest };
}

impl<'a> Parts<'a> {
    /// What stands between the separators of these bytes.
    pub(crate) fn of(separator: u8, bytes: &'a [u8]) -> Parts<'a>
        ensures { result ≡ parts_of separator bytes.now }
    {
        Parts {
            separator,
            rest: Some(bytes),
        }
    }

    /// The first part, which is taken.
    pub(crate) fn next(&mut self) -> Option<&'a [u8]>
        ensures { MatchOption result ((self.old ≡ []) × (self.new ≡ [])) (λ part. self.old ≡ part.now ∷ self.new) }
    {
        let rest = self.rest?;
        match memchr::memchr(self.separator, rest) {
            Some(at) => {
                self.rest = Some(&rest[at + 1..]);
                Some(&rest[..at])
            }
            None => {
                self.rest = None;
                Some(rest)
            }
        }
    }
}
