//! Numbers in decimal.
ghost use Rattle.std.specs.Prelude.{◌≡◌, ◌<◌, ◌^◌, ℕ, IfSome, Some, decimal};

use itoa::Buffer;

/// The number that this text is in decimal, without a sign or a leading zero; `None` exactly where it is none below
/// 2^64.
///
/// Source: own rule.
pub fn whole_number(digits: &str) -> Option<u64>
    ensures found { IfSome result (λ n. (n < 2 ^ 64) × (digits.now ≡ decimal n)) }
    ensures read { (n : ℕ) → n < 2 ^ 64 → digits.now ≡ decimal n → result ≡ Some n }
{
    match digits.parse::<u64>() {
        Ok(number) => {
            let mut written = Buffer::new();
            if written.format(number) == digits {
                Some(number)
            } else {
                None
            }
        }
        Err(_) => None,
    }
}
