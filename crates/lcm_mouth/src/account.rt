//! How a hearing ended, for the account of what was heard.
ghost use Rattle.std.specs.Prelude.{◌≡◌};
ghost use Rattle.lcm_mouth.specs.Account.{last_heard};

use http_wire::WireFault;
use served_account::Hearing;

/// How a hearing ended.
pub fn last_heard(heard: &Result<bool, WireFault>) -> Hearing
    ensures { result ≡ last_heard heard.now }
{
    match heard {
        Ok(true) => Hearing::Request,
        Ok(false) => Hearing::End,
        Err(WireFault::Malformed) => Hearing::Malformed,
        Err(WireFault::TooLarge) => Hearing::TooLarge,
        Err(WireFault::Unfinished) => Hearing::Unfinished,
        Err(WireFault::Read) => Hearing::Unread,
        Err(WireFault::Memory) => Hearing::NoMemory,
    }
}
