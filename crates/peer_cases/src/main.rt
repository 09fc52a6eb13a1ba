//! Answers, exchanges and peers over memory: what is read of each text in pieces, each limit met, and what each call of
//! the real objects gives.
#![tactic(auto)]

mod net;
mod peers;
mod targets;
mod texts;

use anyhow::Result;

fn main(rt: HostRuntime) -> Result<()> {
    texts::read_texts(&rt)?;
    texts::exchange_texts(&rt)?;
    texts::exchange_limits(&rt)?;
    targets::lead_texts(&rt)?;
    peers::ask_orchestrators(&rt)?;
    peers::connect_orchestrators(&rt)?;
    peers::post_notices(&rt)?;
    peers::keep_answers(&rt)?;
    peers::connect_couriers(&rt)?;
    peers::call_infrastructures(&rt)?;
    peers::lose_infrastructures(&rt)
}
