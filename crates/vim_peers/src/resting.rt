//! How long looks and aborts leave an infrastructure alone that met silence, so that a round isn't held up by each.
ghost use Rattle.std.specs.Prelude.{◌≡◌, ◌*◌, ◌^◌, min};
ghost use Rattle.vim_peers.specs.Rests.{no_rest, pause_behind, rest_after, rests, silent_until};

/// Milliseconds of the pause behind the first silence.
pub const FIRST_PAUSE: u64 = 1_000;

/// Times that it is doubled: the longest is of 16,000 ms.
pub const DOUBLINGS: u32 = 4;

/// Milliseconds from which on a call that failed was waited for: those that a peer has to take a connection.
pub const SILENCE: u64 = 1_000;

/// Silences in a row, and the pause behind the last of them.
#[derive(Clone, Copy, PartialEq, Eq, Debug)]
pub struct Rest {
    /// How many silences, up to `DOUBLINGS`.
    pub silences: u32,
    /// The moment to which the pause runs, in milliseconds of a stopwatch.
    pub until: u64,
}

impl Rest {
    /// No silence was met.
    pub fn none() -> Rest
        ensures { result ≡ no_rest }
    {
        Rest {
            silences: 0,
            until: 0,
        }
    }

    /// Whether the pause runs now; where no moment can be read none does.
    pub fn runs(self, now: Option<u64>) -> bool
        ensures { result ≡ rests self now }
    {
        match now {
            Some(now) => now < self.until,
            None => false,
        }
    }

    /// Behind a call that began and ended then, and was answered or failed.
    pub fn after(self, answered: bool, began: Option<u64>, ended: Option<u64>) -> Rest
        ensures { result ≡ rest_after self answered began ended }
    {
        if answered {
            return Rest::none();
        }
        match (began, ended) {
            (Some(began), Some(ended)) if ended.saturating_sub(began) >= SILENCE => self.silent(
                ended,
            ),
            _ => self,
        }
    }

    /// Behind one silence more, that ended then.
    fn silent(self, ended: u64) -> Rest
        ensures { result ≡ silent_until self ended }
    {
        Rest {
            silences: self.silences.saturating_add(1).min(DOUBLINGS),
            until: ended.saturating_add(pause_behind(self.silences)),
        }
    }
}

/// Milliseconds of the pause behind so many silences, one more.
fn pause_behind(silences: u32) -> u64
    ensures { result ≡ pause_behind silences }
{
    FIRST_PAUSE << silences.min(DOUBLINGS)
}
