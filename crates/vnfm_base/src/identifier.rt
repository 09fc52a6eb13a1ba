//! Identifiers: UUIDs that carry a manager's number, what is named, and its number.
ghost use Rattle.std.specs.Prelude.{ℕ, ◌≡◌, ◌+◌, ◌^◌, Some, IfSome, drop};
ghost use Rattle.std.specs.Int.{to_be_bytes, w64};
ghost use Rattle.vnfm_base.specs.declared.identifier.Kind.{Kind};
ghost use Rattle.vnfm_base.specs.Ident.{ident, ident_text, IsIdentNumber, kind_byte};

use uuid::Uuid;

/// What an identifier names.
#[derive(Clone, Copy, PartialEq, Eq)]
pub enum Kind {
    Instance = 1,
    Occurrence = 2,
    Subscription = 3,
    Notice = 4,
}

/// The bit of the variant, above the number.
const VARIANT: u64 = 1 << 63;

/// The identifier of number `n` of this kind at this manager.
///
/// Condition: `n` is from 1 to 2^62 - 1.
/// Source: RFC 9562 5.8 (UUID version 8); the layout is our own rule.
#[tactic(auto, unfolding(crate::specs::Ident::ident))]
pub fn ident(manager: u32, kind: Kind, n: u64) -> Uuid
    requires { IsIdentNumber n }
    ensures { result ≡ ident manager kind n }
{
    let m = manager.to_be_bytes();
    let s = (VARIANT + n).to_be_bytes();
    Uuid::from_bytes([
        m[0],
        m[1],
        m[2],
        m[3],
        0x76,
        0x6d,
        0x80,
        kind_byte(kind),
        s[0],
        s[1],
        s[2],
        s[3],
        s[4],
        s[5],
        s[6],
        s[7],
    ])
}

fn kind_byte(kind: Kind) -> u8
    ensures { result ≡ kind_byte kind }
{
    kind as u8
}

/// The 36 bytes of its text, in lower case and with hyphens.
///
/// Source: RFC 9562 4.
#[tactic(auto, using(crate::proofs::IdentLemmas::length_hyphenated), unfolding(crate::specs::Ident::ident_text))]
pub fn ident_text(id: &Uuid) -> [u8; 36]
    ensures { result ≡ ident_text id.now }
{
    let mut buffer = Uuid::encode_buffer();
    let text = id.hyphenated().encode_lower(&mut buffer);
    let mut bytes = [0; 36];
    bytes.copy_from_slice(text.as_bytes());
    bytes
}

/// The number `n` whose identifier of this kind at this manager has this text; `None` exactly where there is none.
///
/// Upper case, braces and other forms of a UUID aren't read.
/// Source: RFC 9562 4; own rule.
pub fn ident_read(text: &[u8], manager: u32, kind: Kind) -> Option<u64>
    ensures found { IfSome result (λ n. IsIdentNumber n × (text.now ≡ ident_text (ident manager kind n))) }
    ensures read { (n : ℕ) → IsIdentNumber n → text.now ≡ ident_text (ident manager kind n) → result ≡ Some n }
{
    let n = number_in(text)?;
    let expected = ident_text(&ident(manager, kind, n));
    if expected.as_slice() == text {
        Some(n)
    } else {
        None
    }
}

/// The number in the last eight bytes of the UUID with this text, where it is one.
fn number_in(text: &[u8]) -> Option<u64>
    ensures found { IfSome result IsIdentNumber }
    ensures number { (manager : ℕ) (kind : Kind) (n : ℕ) → IsIdentNumber n
        → text.now ≡ ident_text (ident manager kind n) → result ≡ Some n }
{
    match Uuid::try_parse_ascii(text) {
        Ok(id) => number_of(&id),
        Err(_) => None,
    }
}

/// The number in the last eight bytes, where it is one.
fn number_of(id: &Uuid) -> Option<u64>
    ensures found { IfSome result IsIdentNumber }
    ensures number { (n : ℕ) → IsIdentNumber n → drop 8 id.now ≡ to_be_bytes w64 (2 ^ 63 + n) → result ≡ Some n }
{
    let b = id.as_bytes();
    let last = u64::from_be_bytes([b[8], b[9], b[10], b[11], b[12], b[13], b[14], b[15]]);
    if last <= VARIANT || VARIANT + (1 << 62) <= last {
        return None;
    }
    Some(last - VARIANT)
}
