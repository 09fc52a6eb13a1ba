//! The one test that names and lines share.
ghost use Rattle.std.specs.Prelude.{◌≡◌, ◌↔◌, IsTrue, IsSome, IfSome};
ghost use Rattle.vnfm_base.specs.Text.{IsShortText, IsPlain};

use std::str;

/// The bytes as a text, where they are UTF-8 of at most `most` bytes and hold no control character.
pub(crate) fn short_text(bytes: &[u8], most: usize) -> Option<&str>
    ensures short { IsSome result ↔ IsShortText most bytes.now }
    ensures value { IfSome result (λ text. text.now ≡ bytes.now) }
    ensures text { IfSome result (λ text. IsShortText most text.now) }
{
    if bytes.len() > most || !bytes.iter().all(|byte| is_plain(*byte)) {
        return None;
    }
    str::from_utf8(bytes).ok()
}

fn is_plain(byte: u8) -> bool
    ensures { IsTrue result ↔ IsPlain byte }
{
    32 <= byte && byte != 127
}
