//! A request as the layers above see it, and why there is none.
ghost use Rattle.std.specs.Prelude.{◌≡◌};

use http::Method;
use std::alloc::AllocError;
use thiserror::Error;
use vnfm_base::{Bytes, Text};

/// A request of a connection.
pub struct Request {
    /// A token, in the case in which it came.
    pub method: Method,
    /// The request target, as it came, with its query.
    pub target: Text,
    /// The value of the first Content-Type field.
    pub media: Option<Bytes>,
    /// The content, without the framing of chunks.
    pub body: Bytes,
    /// Whether it is the connection's last request: it asks so, or is of HTTP/1.0, or is the 65,536th.
    pub last: bool,
}

impl Drop for Request {
    // Written out, so that the proof of a caller calls it and doesn't take the value apart at each of its ends.
    fn drop(self) {
        let Request {
            method: _,
            target: _,
            media: _,
            body: _,
            last: _,
        } = self;
    }
}

/// What came of taking a request.
#[derive(Drop)]
pub enum Taken {
    /// The next request.
    Request(Request),
    /// No byte was left, or the request before was the last.
    End,
}

/// Why no request could be taken.
#[derive(Debug, Drop, Error)]
pub enum WireFault {
    /// The bytes break the grammar of HTTP or the framing.
    #[error("malformed request")]
    Malformed,
    /// The bytes pass a limit.
    #[error("request too large")]
    TooLarge,
    /// The bytes end inside a request.
    #[error("unfinished request")]
    Unfinished,
    /// A read failed. The door's count of faults rose.
    #[error("read failed")]
    Read,
    /// There is no memory. Nothing is lost: the same call goes on.
    #[error("no memory")]
    Memory,
}

impl From<AllocError> for WireFault {
    ghost use Rattle.http_wire.specs.declared.request.WireFault.TheVariants.{Memory};

    ghost from_gives = { λ _ e. e ≡ Memory };

    fn from(_: AllocError) -> Self {
        WireFault::Memory
    }
}
