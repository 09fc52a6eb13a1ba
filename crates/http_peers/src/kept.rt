//! Exchanges whose answers weren't whole in their time, and may come yet.
ghost use Rattle.std.specs.Prelude.{◌≡◌, ◌<◌, ◌^◌, ◌⊎◌, IfSome, length, slice_index_or};
ghost use Rattle.http_peers.specs.Kept.{IsOf, IsOneLess, IsPutIn, IsTakenAt, is_of, is_silent, is_with, limits_by};

use edge_limits::Exchange;
use std::alloc::Global;
use vnfm_base::Bytes;

/// Exchanges that are kept: one more closes the one that was kept or asked for longest ago.
pub const MOST_KEPT: usize = 64;

/// Calls that look for the answer of one exchange before another is begun for the same request.
pub const LOOKS: u32 = 3;

/// Bytes of the longest front of an answer that is kept.
pub const KEPT_BYTES: usize = 1_048_576;

/// The limits of an exchange with a peer of which an answer is awaited already: nobody waits for it again.
pub const AT_ONCE: Exchange = Exchange {
    silence: 1,
    whole: 1_000,
};

/// An exchange whose request was sent, and whose answer wasn't whole in its time.
#[derive(Drop)]
pub struct Kept<C: Drop> {
    /// The address that the connection was opened to.
    pub address: String,
    /// The request that was sent.
    pub request: Bytes,
    pub connection: C,
    /// What has come of the answer.
    pub came: Vec<u8>,
    /// How many calls looked for the answer in vain.
    pub looks: u32,
}

/// Whether this exchange is with this address.
fn is_with<C: Drop>(kept: &Kept<C>, address: &str) -> bool
    ensures { result ≡ is_with address.now kept.now }
{
    kept.address.as_str() == address
}

/// Whether this exchange is of this request with this address.
fn is_of<C: Drop>(kept: &Kept<C>, address: &str, request: &[u8]) -> bool
    ensures { result ≡ is_of address.now request.now kept.now }
{
    is_with(kept, address) && kept.request.as_slice() == request
}

/// Whether this address is among those of which an answer is awaited.
fn is_silent(silent: &[String], address: &str) -> bool
    ensures { result ≡ is_silent address.now silent.now }
{
    silent.iter().any(|one| one.as_str() == address)
}

/// The limits of an exchange with this address: those that are given, or where it is one of those of which an answer is
/// awaited already, those for which nobody waits.
pub fn limits_for(silent: &[String], address: &str, limits: Exchange) -> Exchange
    requires { limits.silence < 2 ^ 32 }
    ensures value { result ≡ limits_by silent.now limits address.now }
    ensures short { result.silence < 2 ^ 32 }
{
    if is_silent(silent, address) {
        AT_ONCE
    } else {
        limits
    }
}

/// The exchange of this request with this address, which is no longer kept, but for one that was looked for so often that
/// another is to be begun: that is closed.
pub fn take_out<C: Drop>(kept: &mut Vec<Kept<C>>, address: &str, request: &[u8]) -> Option<Kept<C>>
    ensures taken { IfSome result (IsTakenAt address.now request.now kept.old.items kept.new.items) }
    ensures rest { (kept.new.items ≡ kept.old.items) ⊎ IsOneLess kept.old.items kept.new.items }
{
    let place = place_of(kept, address, request)?;
    let one = kept.remove(place);
    if one.looks < LOOKS { Some(one) } else { None }
}

/// The place of the first exchange of this request with this address.
fn place_of<C: Drop>(kept: &[Kept<C>], address: &str, request: &[u8]) -> Option<usize>
    ensures within { IfSome result (λ place. place < length kept.now) }
    ensures of { IfSome result (λ place. (d : Kept C) → IsOf address.now request.now (slice_index_or kept.now place d)) }
{
    for place in 0..kept.len() {
        if is_of(&kept[place], address, request) {
            return Some(place);
        }
    }
    None
}

/// Keeps this exchange. Where too many are kept, the first is closed; where there is no memory, this one is.
pub fn put_in<C: Drop>(kept: &mut Vec<Kept<C>>, one: Kept<C>)
    ensures { IsPutIn one kept.old.items kept.new.items }
{
    if kept.len() >= MOST_KEPT {
        drop(kept.remove(0));
    }
    let _ = kept.push(one);
}

/// An answer of this address is awaited from now on. Without memory it isn't, so that the next call waits again.
pub fn note_silence(alloc: Global, silent: &mut Vec<String>, address: &str) {
    if is_silent(silent, address) {
        return;
    }
    if silent.len() >= MOST_KEPT {
        drop(silent.remove(0));
    }
    if let Ok(address) = String::from_str(alloc, address) {
        let _ = silent.push(address);
    }
}

/// This address has answered, so that its peer is waited for again.
pub fn note_answer(silent: &mut Vec<String>, address: &str) {
    for place in 0..silent.len() {
        if silent[place].as_str() == address {
            drop(silent.remove(place));
            return;
        }
    }
}
