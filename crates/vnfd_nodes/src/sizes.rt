//! Sizes: digits, spaces and a unit.
ghost use Rattle.std.specs.Prelude.{◌≡◌, ◌≤◌, ◌<◌, length, nat_le, if◌then◌else◌, Some, None, IfSome, true, ◌*◌};
ghost use Rattle.std.specs.Char.{digit_value, is_ascii_digit};
ghost use Rattle.std.specs.List.{prefix_len};
ghost use Rattle.std.specs.Str.{all_ascii_digits};
ghost use Rattle.std.specs.Str.Parse.{digits_value};
ghost use Rattle.vnfd_nodes.specs.Sizes.{bytes_of_unit, is_space, is_unit as has_name, size_of};

use crate::bounds::SIZE;

#[tactic(auto, using(crate::proofs::SizeLemmas::size_steps))]
/// The size that a text is, in bytes, where it is one: digits, any spaces, and a unit from B to TiB.
pub fn size_in(text: &str) -> Option<u64>
    ensures { result ≡ size_of text.now }
{
    let bytes = text.as_bytes();
    let digits = digits_len(bytes);
    let rest = &bytes[digits..];
    let unit = unit_bytes(&rest[spaces_len(rest)..])?;
    if digits == 0 {
        return None;
    }
    size_from(&bytes[..digits], unit)
}

/// The bytes that digits and a unit mean, where they are at most 2 ^ 60.
#[tactic(auto, using(crate::proofs::SizeLemmas::over_product))]
fn size_from(digits: &[u8], unit: u64) -> Option<u64>
    requires digits { all_ascii_digits digits.now ≡ true }
    requires unit { 1 ≤ unit }
    ensures { result ≡ (if nat_le (digits_value 10 digits.now * unit) 1152921504606846976
        then Some (digits_value 10 digits.now * unit) else None) }
{
    let number = decimal(digits)?;
    let size = number.checked_mul(unit)?;
    if size > SIZE { None } else { Some(size) }
}

/// How many digits the text begins with.
fn digits_len(bytes: &[u8]) -> usize
    ensures length { result ≡ prefix_len is_ascii_digit bytes.now }
    ensures bound { result ≤ length bytes.now }
{
    for at in 0..bytes.len() {
        if !bytes[at].is_ascii_digit() {
            return at;
        }
    }
    bytes.len()
}

/// How many spaces the text begins with.
fn spaces_len(bytes: &[u8]) -> usize
    ensures length { result ≡ prefix_len is_space bytes.now }
    ensures bound { result ≤ length bytes.now }
{
    for at in 0..bytes.len() {
        if bytes[at] != b' ' {
            return at;
        }
    }
    bytes.len()
}

/// The number that digits mean, where it is at most 2 ^ 60.
#[tactic(auto, using(crate::proofs::SizeLemmas::size_steps))]
fn decimal(digits: &[u8]) -> Option<u64>
    requires { all_ascii_digits digits.now ≡ true }
    ensures { result ≡ (if nat_le (digits_value 10 digits.now) 1152921504606846976
        then Some (digits_value 10 digits.now) else None) }
{
    let mut number = 0;
    for digit in digits {
        number = number * 10 + digit_of(*digit);
        if number > SIZE {
            return None;
        }
    }
    Some(number)
}

/// The number that a digit means.
fn digit_of(digit: u8) -> u64
    requires { is_ascii_digit digit ≡ true }
    ensures value { result ≡ digit_value digit }
    ensures small { result < 10 }
{
    (digit - b'0') as u64
}

/// The bytes of a unit.
fn unit_bytes(unit: &[u8]) -> Option<u64>
    ensures value { result ≡ bytes_of_unit unit.now }
    ensures some { IfSome result (λ bytes. 1 ≤ bytes) }
{
    if is_unit("B", unit) {
        Some(1)
    } else if is_unit("kB", unit) {
        Some(1_000)
    } else if is_unit("KiB", unit) {
        Some(1_024)
    } else if is_unit("MB", unit) {
        Some(1_000_000)
    } else if is_unit("MiB", unit) {
        Some(1_048_576)
    } else if is_unit("GB", unit) {
        Some(1_000_000_000)
    } else if is_unit("GiB", unit) {
        Some(1_073_741_824)
    } else if is_unit("TB", unit) {
        Some(1_000_000_000_000)
    } else if is_unit("TiB", unit) {
        Some(1_099_511_627_776)
    } else {
        None
    }
}

/// Whether a unit has this name, in any case of letters.
fn is_unit(name: &str, unit: &[u8]) -> bool
    ensures { result ≡ has_name name.now unit.now }
{
    name.as_bytes().eq_ignore_ascii_case(unit)
}
