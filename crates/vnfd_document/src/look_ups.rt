//! What stands where in a JSON value.
ghost use Rattle.std.specs.Prelude.{◌≡◌, ◌<◌, ◌^◌, ℕ, List, map, option_map};
ghost use Rattle.std.specs.Str.{bytes_eq};
ghost use Rattle.serde_json.specs.View.{view};
ghost use Rattle.vnfd_document.specs.Json.{at as the_value_at, is_text, whole};
ghost use Rattle.vnfd_document.specs.Places.{has_type as is_of_type, node_named as the_node_named};

use serde_json::Value;

/// What stands under these names, each in what stands under the one before.
pub fn at<'a>(value: &'a Value, names: &[&str]) -> Option<&'a Value>
    ensures { option_map (λ v. view v.now) result ≡ the_value_at (map (λ name. name.now) names.now) (view value.now) }
{
    let mut found = value;
    for name in names {
        found = found.get(*name)?;
    }
    Some(found)
}

/// Whether two texts are the same.
pub fn is_same_text(a: &str, b: &str) -> bool
    ensures { result ≡ bytes_eq a.now b.now }
{
    a == b
}

/// Whether the value is this text.
fn is_this_text(text: &str, value: &Value) -> bool
    ensures { result ≡ is_text text.now (view value.now) }
{
    match value.as_str() {
        Some(found) => is_same_text(text, found),
        None => false,
    }
}

/// Whether a template or a policy is of this type.
pub fn has_type(kind: &str, value: &Value) -> bool
    ensures { result ≡ is_of_type kind.now (view value.now) }
{
    match value.get("type") {
        Some(found) => is_this_text(kind, found),
        None => false,
    }
}

/// The whole number from `low` to `high` that the value is, where it is one.
pub fn whole_in(low: u32, high: u32, value: &Value) -> Option<u32>
    ensures { result ≡ whole low high (view value.now) }
{
    let number = value.as_u64()?;
    if low as u64 <= number && number <= high as u64 {
        Some(number as u32)
    } else {
        None
    }
}

/// The template that a requirement names.
pub fn node_named(value: &Value) -> Option<&str>
    ensures { option_map (λ text. text.now) result ≡ the_node_named (view value.now) }
{
    match value.as_str() {
        Some(text) => Some(text),
        None => value.get("node")?.as_str(),
    }
}
