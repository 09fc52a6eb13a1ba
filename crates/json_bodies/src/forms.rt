//! Members of a body, each of one form.
ghost use Rattle.std.specs.Prelude.{◌≡◌, IfErr, IfOk, IsOk, IsSome, false, is_some, option_map, true};
ghost use Rattle.std.specs.List.{list_all};
ghost use Rattle.serde_json.specs.View.{view};
ghost use Rattle.vnfm_base.specs.Text.{is_label, is_plain, is_short_text};
ghost use Rattle.json_bodies.specs.Body.{Gives, line_in, line_text, member_of, name_in, name_text, needed};
ghost use Rattle.json_bodies.specs.Body.{needed_value, optional, some_name_in, some_name_text};
ghost use Rattle.json_bodies.specs.Tables.{fault_in};

use crate::body::BodyFault;
use serde_json::Value;
use std::alloc::{AllocError, Global};
use vnfm_base::{LINE_MAX, Line, LineFault, Name};

/// What the value of a member may be, and what it says.
pub trait Form<T> {
    ghost use Rattle.std.specs.Prelude.{Bool, Option};
    ghost use Rattle.serde_json.specs.Data.{Data};

    ghost says: { Self → Data → Option T };

    ghost asks_memory: { Self → Bool };

    /// Whether the value has this form.
    fn fits(&self, value: &Value) -> bool
        ensures { result ≡ is_some (says self.now (view value.now)) };

    /// What a value of this form says; `None` where it has another. An error is want of memory, for a value of this
    /// form.
    fn read(&self, alloc: Global, value: &Value) -> Result<Option<T>, AllocError>
        ensures says { IfOk result (λ said. said ≡ says self.now (view value.now)) }
        ensures form { IfErr result (λ e. IsSome (says self.now (view value.now))) }
        ensures memory { IfErr result (λ e. asks_memory self.now ≡ true) };
}

/// A member that is needed.
///
/// Refusals: `Lacks` where it is absent or null; `Wrong` where it has another form; `Memory`.
pub fn needed<T, F: Form<T>>(
    alloc: Global,
    value: &Value,
    name: &str,
    form: &F,
) -> Result<T, BodyFault>
    requires { is_label name.now ≡ true }
    ensures gives { Gives result (needed (F.says form.now) name.now (view value.now)) }
    ensures form { result ≡ Err BodyFault.Memory → IsOk (needed (F.says form.now) name.now (view value.now)) }
    ensures memory { result ≡ Err BodyFault.Memory → F.asks_memory form.now ≡ true }
{
    match member(value, name) {
        Some(found) => of_form(alloc, found, name, form),
        None => Err(BodyFault::Lacks(label(name))),
    }
}

/// A member that may be absent.
///
/// Refusals: `Wrong` where it has another form; `Memory`.
pub fn optional<T, F: Form<T>>(
    alloc: Global,
    value: &Value,
    name: &str,
    form: &F,
) -> Result<Option<T>, BodyFault>
    requires { is_label name.now ≡ true }
    ensures gives { Gives result (optional (F.says form.now) name.now (view value.now)) }
    ensures form { result ≡ Err BodyFault.Memory → IsOk (optional (F.says form.now) name.now (view value.now)) }
    ensures memory { result ≡ Err BodyFault.Memory → F.asks_memory form.now ≡ true }
{
    match member(value, name) {
        Some(found) => match of_form(alloc, found, name, form) {
            Ok(said) => Ok(Some(said)),
            Err(fault) => Err(fault),
        },
        None => Ok(None),
    }
}

/// Refuses a member that may be absent where it has another form, without memory.
pub fn check_optional<T, F: Form<T>>(value: &Value, name: &str, form: &F) -> Result<(), BodyFault>
    requires { is_label name.now ≡ true }
    ensures { fault_in result ≡ fault_in (optional (F.says form.now) name.now (view value.now)) }
{
    match member(value, name) {
        Some(found) => {
            if form.fits(found) {
                Ok(())
            } else {
                Err(BodyFault::Wrong(label(name)))
            }
        }
        None => Ok(()),
    }
}

/// Refuses a member that is needed where it is absent, null or has another form, without memory.
pub fn check_needed<T, F: Form<T>>(value: &Value, name: &str, form: &F) -> Result<(), BodyFault>
    requires { is_label name.now ≡ true }
    ensures { fault_in result ≡ fault_in (needed (F.says form.now) name.now (view value.now)) }
{
    match member(value, name) {
        Some(found) => {
            if form.fits(found) {
                Ok(())
            } else {
                Err(BodyFault::Wrong(label(name)))
            }
        }
        None => Err(BodyFault::Lacks(label(name))),
    }
}

/// What the value of this member says.
fn of_form<T, F: Form<T>>(
    alloc: Global,
    value: &Value,
    name: &str,
    form: &F,
) -> Result<T, BodyFault>
    requires { is_label name.now ≡ true }
    ensures gives { Gives result (needed_value name.now (F.says form.now (view value.now))) }
    ensures form { result ≡ Err BodyFault.Memory → IsSome (F.says form.now (view value.now)) }
    ensures memory { result ≡ Err BodyFault.Memory → F.asks_memory form.now ≡ true }
{
    match form.read(alloc, value) {
        Ok(Some(said)) => Ok(said),
        Ok(None) => Err(BodyFault::Wrong(label(name))),
        Err(_) => Err(BodyFault::Memory),
    }
}

/// The member of this name, unless it is null.
pub fn member<'a>(value: &'a Value, name: &str) -> Option<&'a Value>
    ensures { option_map (λ v. view v.now) result ≡ member_of name.now (view value.now) }
{
    let found = value.get(name)?;
    if found.is_null() { None } else { Some(found) }
}

/// The name of a member, as a fault carries it.
pub fn label(text: &str) -> Name
    requires { is_label text.now ≡ true }
    ensures { result ≡ text.now }
{
    match Name::of(text.as_bytes()) {
        Some(name) => name,
        None => unreachable!(),
    }
}

/// A name.
#[derive(Drop)]
pub struct AnyName {}

impl Form<Name> for AnyName {
    ghost says = { λ f d. name_in d };

    ghost asks_memory = { λ f. false };

    fn fits(&self, value: &Value) -> bool {
        name_in(value).is_some()
    }

    fn read(&self, _alloc: Global, value: &Value) -> Result<Option<Name>, AllocError> {
        Ok(name_in(value))
    }
}

/// A name that isn't empty.
pub struct SomeName {}

impl Form<Name> for SomeName {
    ghost says = { λ f d. some_name_in d };

    ghost asks_memory = { λ f. false };

    fn fits(&self, value: &Value) -> bool {
        some_name_in(value).is_some()
    }

    fn read(&self, _alloc: Global, value: &Value) -> Result<Option<Name>, AllocError> {
        Ok(some_name_in(value))
    }
}

/// A line.
pub struct AnyLine {}

impl Form<Line> for AnyLine {
    ghost says = { λ f d. line_in d };

    ghost asks_memory = { λ f. true };

    fn fits(&self, value: &Value) -> bool {
        match value.as_str() {
            Some(text) => is_line(text),
            None => false,
        }
    }

    fn read(&self, alloc: Global, value: &Value) -> Result<Option<Line>, AllocError> {
        match value.as_str() {
            Some(text) => line_from(alloc, text.as_bytes()),
            None => Ok(None),
        }
    }
}

fn name_in(value: &Value) -> Option<Name>
    ensures { result ≡ name_in (view value.now) }
{
    value.as_str().and_then(|text| name_from(text.as_bytes()))
}

fn some_name_in(value: &Value) -> Option<Name>
    ensures { result ≡ some_name_in (view value.now) }
{
    value
        .as_str()
        .and_then(|text| some_name_from(text.as_bytes()))
}

fn name_from(bytes: &[u8]) -> Option<Name>
    ensures { result ≡ name_text bytes.now }
{
    Name::of(bytes)
}

fn some_name_from(bytes: &[u8]) -> Option<Name>
    ensures { result ≡ some_name_text bytes.now }
{
    if bytes.is_empty() {
        None
    } else {
        name_from(bytes)
    }
}

fn line_from(alloc: Global, bytes: &[u8]) -> Result<Option<Line>, AllocError>
    ensures ok { IfOk result (λ line. line ≡ line_text bytes.now) }
    ensures memory { IfErr result (λ e. IsSome (line_text bytes.now)) }
{
    match Line::of(alloc, bytes) {
        Ok(line) => Ok(Some(line)),
        Err(LineFault::NotLine) => Ok(None),
        Err(LineFault::Memory) => Err(AllocError),
    }
}

/// Whether the text is a line, found without memory.
fn is_line(text: &str) -> bool
    ensures { result ≡ is_short_text 2048 text.now }
{
    text.len() <= LINE_MAX && are_plain(text.as_bytes())
}

fn are_plain(bytes: &[u8]) -> bool
    ensures { result ≡ list_all is_plain bytes.now }
{
    bytes.iter().all(|byte| 32 <= *byte && *byte != 127)
}
