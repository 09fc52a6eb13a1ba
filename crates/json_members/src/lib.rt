//! Members of a JSON object, the text of a value, and the object that says why a request was refused.
#![tactic(auto)]

mod problem;
mod text;

ghost use Rattle.std.specs.Prelude.{◌≡◌, ◌≤◌, IfOk, IsUtf8, OnOk, Some, false, option_map};
ghost use Rattle.serde_json.specs.Data.{depth, put as with_member, string};
ghost use Rattle.serde_json.specs.Read.{max_depth, read};
ghost use Rattle.serde_json.specs.View.{members_view, view};
ghost use Rattle.serde_json.specs.Written.{compact_text, has_float};
ghost use Rattle.json_members.specs.Members.{put_where};

pub use problem::{problem_value, problem_view};
use serde_json::{Map, Value, put};
use std::alloc::{AllocError, Global};
pub use text::JsonText;
use vnfm_base::Bytes;

/// A text as a value.
///
/// Source: RFC 8259 7.
pub fn text_value(alloc: Global, text: &str) -> Result<Value, AllocError>
    ensures { IfOk result (λ value. view value ≡ string text.now) }
{
    Ok(Value::String(String::from_str(alloc, text)?))
}

/// Puts a member whose value is a text, in the place of one of that name where there is one. Where there is no memory
/// for it, the object is of no further use.
///
/// Source: RFC 8259 4.
pub fn put_text(
    members: &mut Map<String, Value>,
    alloc: Global,
    name: &str,
    text: &str,
) -> Result<(), AllocError>
    ensures { OnOk result (members_view members.new.entries
        ≡ with_member name.now (string text.now) (members_view members.old.entries)) }
{
    let value = text_value(alloc, text)?;
    put(members, alloc, name, value)
}

/// Puts a member that is there where there is a value of it, in the place of one of that name. Where there is no memory
/// for it, the object is of no further use.
///
/// Source: RFC 8259 4.
pub fn put_where(
    members: &mut Map<String, Value>,
    alloc: Global,
    name: &str,
    value: Option<Value>,
) -> Result<(), AllocError>
    ensures { OnOk result (members_view members.new.entries
        ≡ put_where name.now (option_map view value) (members_view members.old.entries)) }
{
    match value {
        Some(value) => put(members, alloc, name, value),
        None => Ok(()),
    }
}

/// The text of a value, without white space. It is the value's one compact text where there is no float in it, and it
/// is read back as the value where that nests no deeper than is read.
///
/// Source: RFC 8259 2.
pub fn written(alloc: Global, value: &Value) -> Result<Bytes, AllocError>
    ensures text { has_float (view value.now) ≡ false → IfOk result (λ body. body ≡ compact_text (view value.now)) }
    ensures utf8 { IfOk result (λ body. IsUtf8 body) }
    ensures reads_back { depth (view value.now) ≤ max_depth → IfOk result (λ body. read body ≡ Some (view value.now)) }
{
    let text = value.to_vec(alloc)?;
    Ok(Bytes::of_vec(text))
}
