//! Request bodies: a JSON object, and its members in the order of a table. The first that is missing or wrong is told.
ghost use Rattle.std.specs.Prelude.{◌≡◌, IfErr, IfOk, IsOk};
ghost use Rattle.serde_json.specs.Errors.{IsMemory};
ghost use Rattle.serde_json.specs.View.{view};
ghost use Rattle.json_bodies.specs.Body.{Gives, IsMalformedOrMemory, create_in, create_of, document};

use crate::forms::{AnyLine, AnyName, SomeName, needed, optional};
use serde_json::{Error, Value};
use std::alloc::Global;
use thiserror::Error as Fault;
use vnfm_base::{Line, Name};

/// Why a body wasn't read.
///
/// A refusal names the first member, in the order of the body's type, that is missing or wrong.
#[derive(Debug, Drop, Fault)]
pub enum BodyFault {
    /// The bytes are no JSON object.
    #[error("malformed JSON")]
    Malformed,
    /// This member is needed, and is absent or null.
    #[error("missing member")]
    Lacks(Name),
    /// This member has another form.
    #[error("bad member")]
    Wrong(Name),
    /// There is no memory for it.
    #[error("no memory")]
    Memory,
}

/// The body of a create request.
///
/// Source: SOL 003 5.5.2.3 (CreateVnfRequest).
#[derive(Drop)]
pub struct CreateBody {
    /// `vnfdId`, not empty.
    pub vnfd: Name,
    /// `vnfInstanceName`.
    pub name: Option<Name>,
    /// `vnfInstanceDescription`.
    pub text: Option<Line>,
}

/// Reads the body of a create request.
///
/// Refusals: `Malformed` exactly where the bytes are no JSON object; `Lacks` and `Wrong` with the first member that
/// fails, in the order `vnfdId`, `vnfInstanceName`, `vnfInstanceDescription`; `Memory`, where there was none to read
/// the bytes as JSON, or for a body that would be taken.
pub fn read_create(alloc: Global, bytes: &[u8]) -> Result<CreateBody, BodyFault>
    ensures { Gives result (create_of bytes.now) }
{
    let value = object(alloc, bytes)?;
    create_body(alloc, &value)
}

fn create_body(alloc: Global, value: &Value) -> Result<CreateBody, BodyFault>
    ensures gives { Gives result (create_in (view value.now)) }
    ensures memory { result ≡ Err BodyFault.Memory → IsOk (create_in (view value.now)) }
{
    let vnfd = needed(alloc, value, "vnfdId", &SomeName {})?;
    let name = optional(alloc, value, "vnfInstanceName", &AnyName {})?;
    let text = optional(alloc, value, "vnfInstanceDescription", &AnyLine {})?;
    Ok(CreateBody { vnfd, name, text })
}

/// The JSON object that the bytes are.
pub fn object(alloc: Global, bytes: &[u8]) -> Result<Value, BodyFault>
    ensures ok { IfOk result (λ value. document bytes.now ≡ Some (view value)) }
    ensures malformed { result ≡ Err BodyFault.Malformed → document bytes.now ≡ None }
    ensures only { IfErr result IsMalformedOrMemory }
{
    match Value::from_slice(alloc, bytes) {
        Ok(value) => {
            if value.is_object() {
                Ok(value)
            } else {
                Err(BodyFault::Malformed)
            }
        }
        Err(error) => Err(fault_of(&error)),
    }
}

fn fault_of(error: &Error) -> BodyFault
    ensures memory { IsMemory error.now → result ≡ BodyFault.Memory }
    ensures malformed { ¬ (IsMemory error.now) → result ≡ BodyFault.Malformed }
{
    if error.is_memory() {
        BodyFault::Memory
    } else {
        BodyFault::Malformed
    }
}
