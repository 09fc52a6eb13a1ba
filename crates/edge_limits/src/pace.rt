//! What came of the rounds, by which a door knows when the next one is due.
ghost use Rattle.std.specs.Prelude.{◌≡◌, ◌≤◌, ◌*◌, ◌^◌, min};
ghost use Rattle.edge_limits.specs.Paces.{after_round, between_tries, due_after, is_paused, one_more_in_vain, once_written};
ghost use Rattle.edge_limits.specs.Paces.{vain_rounds_after, waiting_rounds_after};

/// What was done since the last round began, and how the rounds before it went.
#[derive(Clone, Copy, PartialEq, Eq, Debug)]
pub struct Pace {
    /// Something went on: a job was begun or has ended, a grant was decided, a notice was taken, or an act was recorded.
    pub went_on: bool,
    /// A try that is counted was in vain: an ask without a grant or a refusal, or a notice that wasn't taken.
    pub in_vain: bool,
    /// Something is waited for: a job runs, or a grant comes later.
    pub awaited: bool,
    /// A call on the infrastructure failed.
    pub failed: bool,
    /// A notice was posted.
    pub posted: bool,
    /// Rounds with a try in vain, since one in which something went on and none was.
    pub vain_rounds: u32,
    /// Rounds in a row in which something was waited for and nothing went on.
    pub waiting_rounds: u32,
}

/// Milliseconds of the pause where nothing goes on, where a call on the infrastructure failed, and where a try was in
/// vain while something is waited for.
pub const RESTING: u32 = 1_000;

impl Pace {
    /// Before the first round: what a life before left may go on at once.
    pub fn at_start() -> Pace
        ensures { due_after result ≡ 0 }
    {
        Pace {
            went_on: true,
            in_vain: false,
            awaited: false,
            failed: false,
            posted: false,
            vain_rounds: 0,
            waiting_rounds: 0,
        }
    }

    /// The journal was written. Before a notice was posted, and where no ask was in vain, it was an act, which may call
    /// nobody: so something went on.
    pub fn wrote(self) -> Pace
        ensures { result ≡ once_written self }
    {
        if self.posted || self.in_vain {
            return self;
        }
        Pace {
            went_on: true,
            in_vain: self.in_vain,
            awaited: self.awaited,
            failed: self.failed,
            posted: self.posted,
            vain_rounds: self.vain_rounds,
            waiting_rounds: self.waiting_rounds,
        }
    }

    /// Milliseconds from a round in which this was done to the next one.
    pub fn due(self) -> u32
        ensures { result ≡ due_after self }
    {
        if self.went_on {
            0
        } else if self.in_vain && self.awaited {
            RESTING
        } else if self.in_vain {
            between_tries(self.vain_rounds)
        } else if self.failed {
            RESTING
        } else if self.awaited {
            doubled(self.waiting_rounds.min(7))
        } else {
            RESTING
        }
    }

    /// Whether a pause runs behind tries in vain.
    pub fn is_paused(self) -> bool
        ensures { result ≡ is_paused self }
    {
        self.in_vain && !self.went_on
    }

    /// Behind the round in which this was done: nothing was done yet.
    pub fn renewed(self) -> Pace
        ensures { result ≡ after_round self }
    {
        Pace {
            went_on: false,
            in_vain: false,
            awaited: false,
            failed: false,
            posted: false,
            vain_rounds: vain_rounds_after(self),
            waiting_rounds: waiting_rounds_after(self),
        }
    }
}

/// The rounds with a try in vain behind this one.
fn vain_rounds_after(pace: Pace) -> u32
    ensures { result ≡ vain_rounds_after pace }
{
    if pace.in_vain {
        one_more_in_vain(pace.vain_rounds)
    } else if pace.went_on {
        0
    } else {
        pace.vain_rounds
    }
}

/// The rounds in a row in which something was waited for and nothing went on, behind this one.
fn waiting_rounds_after(pace: Pace) -> u32
    ensures { result ≡ waiting_rounds_after pace }
{
    if pace.awaited && !pace.went_on {
        pace.waiting_rounds.saturating_add(1)
    } else {
        0
    }
}

/// Milliseconds to the next try behind so many rounds with one in vain: five tries span half a minute. Behind the fifth
/// the pause is short, so that what comes of it is recorded, and the next notice begins.
fn between_tries(rounds: u32) -> u32
    ensures { result ≡ between_tries rounds }
{
    match rounds {
        0 => 2_000,
        1 => 4_000,
        2 => 8_000,
        3 => 16_000,
        _ => RESTING,
    }
}

/// The rounds with a try in vain behind one more, of five.
fn one_more_in_vain(rounds: u32) -> u32
    ensures { result ≡ one_more_in_vain rounds }
{
    if rounds >= 4 { 0 } else { rounds + 1 }
}

/// The pause of 10 milliseconds, doubled so often, to a second.
fn doubled(times: u32) -> u32
    requires { times ≤ 7 }
    ensures { result ≡ min (10 * 2 ^ times) 1000 }
{
    (10u32 << times).min(RESTING)
}
