//! The texts of the identifier and the moment of a notice.
ghost use Rattle.std.specs.Prelude.{◌≡◌, IfOk, string_bytes};
ghost use Rattle.json_views.specs.Moments.{moment_text};
ghost use Rattle.notice_views.specs.Notice.{notice_id};
ghost use Rattle.vnfm_base.specs.Ident.{IsIdentNumber};

use json_views::{identifier, moments_have_one_text};
use std::alloc::{AllocError, Global};
use vnfm_base::{Kind, Moment, moment_text};

/// The text of the identifier of the notice of the event at this place.
#[tactic(auto, unfolding(crate::specs::Notice::notice_id))]
pub fn notice_id(alloc: Global, manager: u32, place: u64) -> Result<String, AllocError>
    requires { IsIdentNumber place }
    ensures { IfOk result (λ id. string_bytes id ≡ notice_id manager place) }
{
    identifier(alloc, manager, Kind::Notice, place)
}

/// The text of a moment.
pub fn moment_string(alloc: Global, moment: Moment) -> Result<String, AllocError>
    ensures { IfOk result (λ text. string_bytes text ≡ moment_text moment) }
{
    moments_have_one_text();
    let bytes = moment_text(moment);
    let text = text_of(alloc, bytes.as_slice())?;
    Ok(text)
}

/// The text of these bytes, which are digits, letters, `-`, `:` and `.` alone.
fn text_of(alloc: Global, bytes: &[u8]) -> Result<String, AllocError>
    ensures { IfOk result (λ text. string_bytes text ≡ bytes.now) }
{
    match str::from_utf8(bytes) {
        Ok(text) => String::from_str(alloc, text),
        Err(_) => Err(AllocError),
    }
}
