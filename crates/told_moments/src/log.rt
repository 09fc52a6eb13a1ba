//! Moments of a site that only proofs read. They take no memory, and their calls do nothing when they run: what a
//! moment is isn't known to code.
ghost use Rattle.std.specs.Prelude.{◌≡◌, List, [], ◌∷◌, ℕ};
ghost use Rattle.std.specs.Borrow.{ftrue};

use std::marker::Model;

/// The moments at which something was told, the latest first. A clause reads them as `moments`.
///
/// Nothing ties them to anything by itself: the clause of the call that notes a moment does, by saying which moment it
/// notes.
#[derive(Drop)]
pub struct ToldMoments {
    /// The moments.
    pub ghost moments: { List ℕ },
}

impl Model for ToldMoments {
    ghost also_owns = { λ _. ftrue };
}

impl ToldMoments {
    /// No moment.
    pub fn new() -> ToldMoments
        ensures { result.moments ≡ [] }
    {
        ToldMoments {}
    }

    /// These moments, and behind them one more, which the caller's proof names by this object.
    pub fn with<T>(&self, object: &T) -> ToldMoments
        ghost moment: { ℕ }
        ensures { result.moments ≡ moment ∷ self.now.moments }
    {
        ToldMoments {}
    }
}
