//! What stands in one field: a number, a name or a word.
ghost use Rattle.std.specs.Prelude.{◌≡◌, ◌≤◌, ◌<◌, ◌^◌, ◌*◌, ◌↔◌, IsTrue, IsSome, IsUtf8, ℕ, List, IfSome, Some};
ghost use Rattle.std.specs.Prelude.{decimal, length};
ghost use Rattle.hex.specs.Hex.{encode_lower};
ghost use Rattle.lcm_events.specs.declared.attempts.Way.{Way as WayOf};
ghost use Rattle.lcm_events.specs.declared.changes.DefKind.{DefKind as KindOf};
ghost use Rattle.lcm_events.specs.declared.changes.Verb.{Verb as VerbOf};
ghost use Rattle.vim_wire.specs.Lines.{name_field, way_word, verb_word, kind_word};
ghost use Rattle.vnfm_base.specs.Text.{IsName};

use lcm_events::{DefKind, Verb, Way};
use std::str;
use vnfm_base::{NAME_MAX, Name, whole_number};

/// The number of this field, in decimal without a sign or a leading zero.
pub(crate) fn number(field: &[u8]) -> Option<u64>
    ensures found { IfSome result (λ n. (n < 2 ^ 64) × (field.now ≡ decimal n)) }
    ensures again { (n : ℕ) → n < 2 ^ 64 → field.now ≡ decimal n → result ≡ Some n }
{
    let digits = text(field)?;
    whole_number(digits)
}

/// The field as a text, where it is one.
fn text(field: &[u8]) -> Option<&str>
    ensures text { IsSome result ↔ IsUtf8 field.now }
    ensures value { IfSome result (λ text. text.now ≡ field.now) }
{
    str::from_utf8(field).ok()
}

/// The name of this field: an x, and two lower-case digits for each byte.
pub(crate) fn name(field: &[u8]) -> Option<Name>
    ensures found { IfSome result (λ n. IsName n × (field.now ≡ name_field n)) }
    ensures again { (n : List ℕ) → IsName n → field.now ≡ name_field n → result ≡ Some n }
{
    let [b'x', digits @ ..] = field else {
        return None;
    };
    if digits.len() > 2 * NAME_MAX {
        return None;
    }
    if digits.len() % 2 != 0 {
        return None;
    }
    let mut room = [0; NAME_MAX];
    name_in(digits, &mut room[..digits.len() / 2])
}

/// The name whose bytes these digits are, which are put into this room.
fn name_in(digits: &[u8], bytes: &mut [u8]) -> Option<Name>
    requires length { length digits.now ≡ 2 * length bytes.old }
    requires most { length digits.now ≤ 510 }
    ensures found { IfSome result (λ n. IsName n × (digits.now ≡ encode_lower n)) }
    ensures again { (n : List ℕ) → IsName n → digits.now ≡ encode_lower n → result ≡ Some n }
{
    if hex::decode_to_slice(digits, bytes).is_err() {
        return None;
    }
    if is_encoded(digits, bytes) {
        Name::of(bytes)
    } else {
        None
    }
}

/// Whether these are the lower-case digits of the bytes.
fn is_encoded(digits: &[u8], bytes: &[u8]) -> bool
    requires { length digits.now ≤ 510 }
    ensures { IsTrue result ↔ (digits.now ≡ encode_lower bytes.now) }
{
    let mut room = [0; 2 * NAME_MAX];
    is_written(digits, bytes, &mut room[..digits.len()])
}

/// The same, where the digits of the bytes are written into this room.
fn is_written(digits: &[u8], bytes: &[u8], room: &mut [u8]) -> bool
    requires { length room.old ≡ length digits.now }
    ensures { IsTrue result ↔ (digits.now ≡ encode_lower bytes.now) }
{
    hex::encode_to_slice(bytes, room).is_ok() && *room == *digits
}

/// What this word says that an act does.
pub(crate) fn verb(word: &[u8]) -> Option<Verb>
    ensures found { IfSome result (λ verb. word.now ≡ verb_word verb) }
    ensures again { (verb : VerbOf) → word.now ≡ verb_word verb → result ≡ Some verb }
{
    if word == b"CREATE".as_slice() {
        Some(Verb::Create)
    } else if word == b"REMOVE".as_slice() {
        Some(Verb::Remove)
    } else if word == b"START".as_slice() {
        Some(Verb::Start)
    } else if word == b"STOP".as_slice() {
        Some(Verb::Stop)
    } else {
        None
    }
}

/// The kind of resource that this word says.
pub(crate) fn kind(word: &[u8]) -> Option<DefKind>
    ensures found { IfSome result (λ kind. word.now ≡ kind_word kind) }
    ensures again { (kind : KindOf) → word.now ≡ kind_word kind → result ≡ Some kind }
{
    if word == b"LINK".as_slice() {
        Some(DefKind::Link)
    } else if word == b"STORAGE".as_slice() {
        Some(DefKind::Storage)
    } else if word == b"COMPUTE".as_slice() {
        Some(DefKind::Compute)
    } else if word == b"PORT".as_slice() {
        Some(DefKind::Port)
    } else {
        None
    }
}

/// Whether an attempt makes its change or undoes it.
pub(crate) fn way(word: &[u8]) -> Option<Way>
    ensures found { IfSome result (λ way. word.now ≡ way_word way) }
    ensures again { (way : WayOf) → word.now ≡ way_word way → result ≡ Some way }
{
    if word == b"F".as_slice() {
        Some(Way::Forward)
    } else if word == b"U".as_slice() {
        Some(Way::Undo)
    } else {
        None
    }
}
