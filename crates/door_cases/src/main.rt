//! Connections, networks, limits and the door, over memory: what each call gives where a peer is silent, and where it
//! isn't, and what the door gathers. The stopwatches go on by a step a look, so that each limit is met without a wait.
#![tactic(auto)]

mod connections;
mod gathering;
mod limits;
mod networks;

use anyhow::Result;

fn main(rt: HostRuntime) -> Result<()> {
    limits::print_limits(&rt)?;
    connections::print_connections(&rt)?;
    networks::print_networks(&rt)?;
    gathering::print_gatherings(&rt)
}
