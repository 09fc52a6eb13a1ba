//! Members and lists of a view.
ghost use Rattle.std.specs.Prelude.{◌≡◌, All, IfOk, OnOk, false, filter, map, option_map};
ghost use Rattle.serde_json.specs.View.{items_of, members_view, view};
ghost use Rattle.serde_json.specs.Data.{array, put as with_member, string};
ghost use Rattle.serde_json.specs.Written.{compact_text, has_float};
ghost use Rattle.json_members.specs.Members.{put_where};
ghost use Rattle.json_members.specs.Text.{with_value};
ghost use Rattle.json_views.specs.Views.{array_of};

use json_members::JsonText;
pub use json_members::{put_text, put_where, text_value};
use serde_json::{Map, Value, put};
use std::alloc::{AllocError, Global};
use vnfm_base::{Bytes, Line, Name};

/// Puts a member whose value is a name that may be absent.
pub fn put_name_where(
    members: &mut Map<String, Value>,
    alloc: Global,
    name: &str,
    value: &Option<Name>,
) -> Result<(), AllocError>
    ensures { OnOk result (members_view members.new.entries
        ≡ put_where name.now (option_map string value.now) (members_view members.old.entries)) }
{
    match value {
        Some(value) => put_text(members, alloc, name, value.as_str()),
        None => Ok(()),
    }
}

/// Puts a member whose value is a line that may be absent.
pub fn put_line_where(
    members: &mut Map<String, Value>,
    alloc: Global,
    name: &str,
    value: &Option<Line>,
) -> Result<(), AllocError>
    ensures { OnOk result (members_view members.new.entries
        ≡ put_where name.now (option_map string value.now) (members_view members.old.entries)) }
{
    match value {
        Some(value) => put_text(members, alloc, name, value.as_str()),
        None => Ok(()),
    }
}

/// Which entries of a list a view shows, and as what.
pub trait Shows<T> {
    ghost use Rattle.std.specs.Prelude.{Bool};
    ghost use Rattle.serde_json.specs.Data.{Data};

    ghost IsReady: { Self → Type 0 };

    ghost MayShow: { Self → T → Type 0 } = { λ s x. Unit {0} };

    ghost has: { Self → T → Bool };

    ghost shown: { Self → T → Data };

    /// Whether the entry is shown.
    fn has(&self, entry: &T) -> bool
        requires ready { IsReady self.now }
        requires entry { MayShow self.now entry.now }
        ensures { result ≡ has self.now entry.now };

    /// What it is shown as.
    fn show(&self, alloc: Global, entry: &T) -> Result<Value, AllocError>
        requires ready { IsReady self.now }
        requires entry { MayShow self.now entry.now }
        ensures { IfOk result (λ value. view value ≡ shown self.now entry.now) };
}

/// The text of the array of what the entries that are shown are shown as, in order. The value of each is let go as soon
/// as it is written, so that of the list there is its text alone.
pub fn array_text<T, S: Shows<T>>(
    alloc: Global,
    entries: &[T],
    shows: &S,
) -> Result<Bytes, AllocError>
    requires ready { S.IsReady shows.now }
    requires each { All (S.MayShow shows.now) entries.now }
    requires plain { (x : T) → has_float (S.shown shows.now x) ≡ false }
    ensures { IfOk result (λ body. body
        ≡ compact_text (array_of (S.shown shows.now) (filter (S.has shows.now) entries.now))) }
{
    let mut text = JsonText::new(alloc);
    write_array(&mut text, alloc, entries, shows)?;
    Ok(text.into_bytes())
}

fn write_array<T, S: Shows<T>>(
    text: &mut JsonText,
    alloc: Global,
    entries: &[T],
    shows: &S,
) -> Result<(), AllocError>
    requires ready { S.IsReady shows.now }
    requires each { All (S.MayShow shows.now) entries.now }
    requires plain { (x : T) → has_float (S.shown shows.now x) ≡ false }
    ensures { OnOk result (text.new
        ≡ with_value (array_of (S.shown shows.now) (filter (S.has shows.now) entries.now)) text.old) }
{
    text.begin_array()?;
    for entry in entries {
        if shows.has(entry) {
            let value = shows.show(alloc, entry)?;
            text.value(alloc, &value)?;
        }
    }
    text.end_array()
}

/// The array of what the entries that are shown are shown as, in order.
fn array_of<T, S: Shows<T>>(alloc: Global, entries: &[T], shows: &S) -> Result<Value, AllocError>
    requires ready { S.IsReady shows.now }
    requires each { All (S.MayShow shows.now) entries.now }
    ensures { IfOk result (λ value. view value ≡ array_of (S.shown shows.now) (filter (S.has shows.now) entries.now)) }
{
    Ok(Value::Array(values_of(alloc, entries, shows)?))
}

/// Puts a member whose value is that array.
pub fn put_array<T, S: Shows<T>>(
    members: &mut Map<String, Value>,
    alloc: Global,
    name: &str,
    entries: &[T],
    shows: &S,
) -> Result<(), AllocError>
    requires ready { S.IsReady shows.now }
    requires each { All (S.MayShow shows.now) entries.now }
    ensures { OnOk result (members_view members.new.entries
        ≡ with_member name.now (array_of (S.shown shows.now) (filter (S.has shows.now) entries.now))
        (members_view members.old.entries)) }
{
    let value = array_of(alloc, entries, shows)?;
    put(members, alloc, name, value)
}

fn values_of<T, S: Shows<T>>(
    alloc: Global,
    entries: &[T],
    shows: &S,
) -> Result<Vec<Value>, AllocError>
    requires ready { S.IsReady shows.now }
    requires each { All (S.MayShow shows.now) entries.now }
    ensures { IfOk result (λ values. map view values.items
        ≡ map (S.shown shows.now) (filter (S.has shows.now) entries.now)) }
{
    let mut values = Vec::new(alloc);
    for entry in entries {
        if shows.has(entry) {
            values.push(shows.show(alloc, entry)?)?;
        }
    }
    Ok(values)
}
