//! An answer over HTTP, as a kind of reply.
ghost use Rattle.std.specs.Prelude.{List, ℕ, IfOk};
ghost use Rattle.http_client.specs.Reading.{HasRead};

use http_client::{ResponseFault, ResponseReader};
use peer_exchange::{Judged, Reply};
use site_traits::Heard;
use std::alloc::{AllocError, Global};

/// Judges the bytes of an answer, and hears it where it is whole.
#[derive(Drop)]
pub struct HttpReply {
    alloc: Global,
    reader: ResponseReader,
    pub heard: Heard,
}

impl HttpReply {
    /// It takes the room for every answer.
    pub fn new(alloc: Global) -> Result<HttpReply, AllocError>
        ensures { IfOk result (λ r. (bytes : List ℕ) → HasRead bytes r.reader) }
    {
        let reader = ResponseReader::new(alloc)?;
        let heard = Heard::new(alloc)?;
        Ok(HttpReply {
            alloc,
            reader,
            heard,
        })
    }

    /// Forgets what was judged.
    pub fn renew(&mut self)
        ensures { (bytes : List ℕ) → HasRead bytes self.new.reader }
    {
        self.reader.renew(self.alloc);
    }
}

impl Reply for HttpReply {
    ghost use Rattle.http_client.specs.Reading.{HasRead};
    ghost use Rattle.http_peers.specs.Peers.{JudgedIs};

    ghost judged = { λ r bytes. HasRead bytes r.reader };

    ghost is = { λ r ended bytes judged. JudgedIs ended bytes r.heard judged };

    fn judge(&mut self, bytes: &[u8], ended: bool) -> Judged {
        match self.reader.read(self.alloc, bytes, ended, &mut self.heard) {
            Ok(true) => Judged::Whole,
            Ok(false) => Judged::Part,
            Err(ResponseFault::Memory) => Judged::Unknown,
            Err(ResponseFault::Malformed) => Judged::Never,
            Err(ResponseFault::TooLarge) => Judged::Never,
        }
    }
}
