//! Names: how a refusal carries them, and how a descriptor's own are read.
ghost use Rattle.std.specs.Prelude.{◌≡◌, true, if◌then◌else◌, Some, None};
ghost use Rattle.vnfm_base.specs.Text.{is_label};
ghost use Rattle.vnfd_document.specs.Names.{is_name, is_given_name, name_or_empty as the_name_or_empty};
ghost use Rattle.vnfd_document.specs.Names.{unknown as the_unknown};

use crate::VnfdFault;
use vnfm_base::Name;

/// The name of a text of the reader's own, as a refusal carries it.
pub fn label(text: &str) -> Name
    requires { is_label text.now ≡ true }
    ensures { result ≡ text.now }
{
    match Name::of(text.as_bytes()) {
        Some(name) => name,
        None => unreachable!(),
    }
}

/// The name of these bytes, where they are one.
fn name_of(bytes: &[u8]) -> Option<Name>
    ensures { result ≡ (if is_name bytes.now then Some bytes.now else None) }
{
    Name::of(bytes)
}

/// The text, where it is a name.
pub fn name_in(text: &str) -> Option<Name>
    ensures { result ≡ (if is_name text.now then Some text.now else None) }
{
    name_of(text.as_bytes())
}

/// The text where it is a name, else the empty name.
pub fn name_or_empty(text: &str) -> Name
    ensures { result ≡ the_name_or_empty text.now }
{
    match name_in(text) {
        Some(name) => name,
        None => label(""),
    }
}

/// Whether the text is a name that isn't empty.
pub fn is_given(text: &str) -> bool
    ensures { result ≡ is_given_name text.now }
{
    !text.is_empty() && name_in(text).is_some()
}

/// Why a text that names nothing is refused: it is unknown, or it is no name at all.
pub fn unknown(target: &str) -> VnfdFault
    ensures { result ≡ the_unknown target.now }
{
    if target.is_empty() {
        return VnfdFault::Wrong(label("name"));
    }
    match name_in(target) {
        Some(name) => VnfdFault::Unknown(name),
        None => VnfdFault::Wrong(label("name")),
    }
}
