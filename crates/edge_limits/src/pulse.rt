//! What was done since a door was last asked for a connection.
ghost use Rattle.std.specs.Prelude.{◌≡◌};
ghost use Rattle.edge_limits.specs.Waits.{at_start, renewed};

/// What was done.
#[derive(Clone, Copy, PartialEq, Eq, Debug)]
pub struct Pulse {
    /// Something was recorded, so that there may be something to do at once.
    pub acted: bool,
    /// An infrastructure or an orchestrator was asked how far it is.
    pub asked: bool,
    /// A call on a peer failed.
    pub failed: bool,
    /// For how many rounds in a row nothing was recorded while something was asked.
    pub rounds: u32,
}

impl Pulse {
    /// Before the first wait: what a life before left may go on at once.
    pub fn at_start() -> Pulse
        ensures { result ≡ at_start }
    {
        Pulse {
            acted: true,
            asked: false,
            failed: false,
            rounds: 0,
        }
    }

    /// Behind a wait: nothing was done yet, and the round counts where something was asked and nothing recorded.
    pub fn renewed(self) -> Pulse
        ensures { result ≡ renewed self }
    {
        let idle = self.asked && !self.acted;
        Pulse {
            acted: false,
            asked: false,
            failed: false,
            rounds: if idle {
                self.rounds.saturating_add(1)
            } else {
                0
            },
        }
    }
}
