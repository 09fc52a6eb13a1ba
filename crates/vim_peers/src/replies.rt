//! A reply's line, as a kind of reply.
ghost use Rattle.std.specs.Prelude.{◌≡◌};

use http_frames::chunks::rest;
use memchr::memchr;
use peer_exchange::{Judged, Reply};
use vim_wire::{LINE_BYTES, VimReply, read_reply};

/// Judges the bytes of a reply's line.
#[derive(Drop)]
pub struct LineReply {
    // Bytes in which no line feed was found.
    seen: usize,
    /// The reply of the last whole line.
    pub found: Option<VimReply>,
}

impl LineReply {
    /// One that has judged nothing.
    pub fn new() -> LineReply
        ensures { result.seen ≡ 0 }
    {
        LineReply {
            seen: 0,
            found: None,
        }
    }
}

impl Reply for LineReply {
    ghost use Rattle.std.specs.Prelude.{◌≤◌, length};
    ghost use Rattle.vim_peers.specs.Lines.{LineIs};

    ghost judged = { λ r bytes. r.seen ≤ length bytes };

    ghost is = { λ r ended bytes judged. LineIs bytes r.found judged };

    fn judge(&mut self, bytes: &[u8], _ended: bool) -> Judged {
        match bytes {
            [.., b'\n'] => match read_reply(bytes) {
                Ok(reply) => {
                    self.found = Some(reply);
                    Judged::Whole
                }
                Err(_) => Judged::Never,
            },
            _ if bytes.len() >= LINE_BYTES => Judged::Never,
            _ => match memchr(b'\n', rest(bytes, self.seen)) {
                Some(_) => Judged::Never,
                None => {
                    self.seen = bytes.len();
                    Judged::Part
                }
            },
        }
    }
}
