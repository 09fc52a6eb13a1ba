//! A grant, read from JSON.
ghost use Rattle.std.specs.Prelude.{◌≡◌, IfOk, option_and_then, option_map};
ghost use Rattle.serde_json.specs.View.{items_view, view};
ghost use Rattle.grant_desk.specs.Answers.{given_in, given_text, grant_in, grant_of, name_in, name_text, name_where};
ghost use Rattle.grant_desk.specs.Answers.{place_in, row_in, rows_in, rows_where};

use crate::places::no_name;
use crate::rows::{GrantRow, GrantRows};
use lcm_events::{Listed, Place};
use serde_json::Value;
use std::alloc::{AllocError, Global};
use vnfm_base::Name;

/// The grant that the bytes are; `None` exactly where they are none.
///
/// Source: SOL 003 9.5.2.3 (Grant); RFC 8259.
pub fn read_grant(alloc: Global, bytes: &[u8]) -> Result<Option<GrantRows>, AllocError>
    ensures { IfOk result (λ rows. rows ≡ grant_of bytes.now) }
{
    match Value::from_slice(alloc, bytes) {
        Ok(value) => grant_in(alloc, &value),
        Err(error) => {
            if error.is_memory() {
                Err(AllocError)
            } else {
                Ok(None)
            }
        }
    }
}

/// The grant that a value is.
fn grant_in(alloc: Global, value: &Value) -> Result<Option<GrantRows>, AllocError>
    ensures { IfOk result (λ rows. rows ≡ grant_in (view value.now)) }
{
    let Some(grant) = given_name_in(value.get("id")) else {
        return Ok(None);
    };
    let Some(add) = rows_where(alloc, value.get("addResources"))? else {
        return Ok(None);
    };
    let Some(remove) = rows_where(alloc, value.get("removeResources"))? else {
        return Ok(None);
    };
    let Some(update) = rows_where(alloc, value.get("updateResources"))? else {
        return Ok(None);
    };
    Ok(Some(GrantRows {
        grant,
        add,
        remove,
        update,
    }))
}

/// The rows of a member that may be absent.
fn rows_where(alloc: Global, value: Option<&Value>) -> Result<Option<Listed<GrantRow>>, AllocError>
    ensures { IfOk result (λ rows. rows ≡ rows_where (option_map (λ v. view v.now) value.entry)) }
{
    let Some(value) = value else {
        return Ok(Some(Listed::new(alloc)));
    };
    match value.as_array() {
        Some(values) => rows_in(alloc, values.as_slice()),
        None => Ok(None),
    }
}

/// The rows that the values of a list are.
fn rows_in(alloc: Global, values: &[Value]) -> Result<Option<Listed<GrantRow>>, AllocError>
    ensures { IfOk result (λ rows. rows ≡ rows_in (items_view values.now)) }
{
    let mut rows = Listed::new(alloc);
    for value in values {
        let Some(row) = row_in(value) else {
            return Ok(None);
        };
        rows.push(row)?;
    }
    Ok(Some(rows))
}

/// The row that a value is.
fn row_in(value: &Value) -> Option<GrantRow>
    ensures { result ≡ row_in (view value.now) }
{
    let id = name_in(value.get("resourceDefinitionId")?)?;
    let place = place_in(value)?;
    Some((id, place))
}

/// The place of the row that a value is.
fn place_in(value: &Value) -> Option<Place>
    ensures { result ≡ place_in (view value.now) }
{
    let vim = name_where(value.get("vimConnectionId"))?;
    let zone = name_where(value.get("zoneId"))?;
    Some(Place { vim, zone })
}

/// The name of a member that may be absent.
fn name_where(value: Option<&Value>) -> Option<Name>
    ensures { result ≡ name_where (option_map (λ v. view v.now) value.entry) }
{
    match value {
        Some(value) => name_in(value),
        None => Some(no_name()),
    }
}

/// The name that a value is.
fn name_in(value: &Value) -> Option<Name>
    ensures { result ≡ name_in (view value.now) }
{
    name_text(value.as_str()?.as_bytes())
}

/// The name that isn't empty of a member.
fn given_name_in(value: Option<&Value>) -> Option<Name>
    ensures { result ≡ option_and_then given_in (option_map (λ v. view v.now) value.entry) }
{
    given_text(value?.as_str()?.as_bytes())
}

/// The name of these bytes, where they are one.
fn name_text(bytes: &[u8]) -> Option<Name>
    ensures { result ≡ name_text bytes.now }
{
    Name::of(bytes)
}

/// The name of these bytes, where they are one and aren't empty.
fn given_text(bytes: &[u8]) -> Option<Name>
    ensures { result ≡ given_text bytes.now }
{
    if bytes.is_empty() {
        None
    } else {
        name_text(bytes)
    }
}
