//! The JSON object that the bytes of a descriptor are.
ghost use Rattle.std.specs.Prelude.{◌≡◌, IfOk, IfErr, Ok, option_map};
ghost use Rattle.serde_json.specs.Errors.{IsMemory};
ghost use Rattle.serde_json.specs.View.{view};
ghost use Rattle.vnfd_document.specs.Checks.{IsFault, fault_of};
ghost use Rattle.vnfd_document.specs.Document.{document, object_of};
ghost use Rattle.vnfd_document.specs.declared.document.TheConstants.{BYTES_MAX};

use crate::VnfdFault;
use crate::names::label;
use serde_json::Value;
use std::alloc::Global;

/// Bytes of a document. The largest valid descriptor is far shorter.
pub const BYTES_MAX: usize = 1_048_576;

/// The limit, as a number: a document has at most 1,048,576 bytes.
pub fn limits()
    ensures { BYTES_MAX ≡ 1048576 }
{}

/// The JSON object that the bytes are.
///
/// Refusals, in this order: `TooMany` (bytes) exactly where there are more than 1,048,576; `NotJson` exactly where they
/// are no JSON object; `Memory`.
/// Source: RFC 8259; own limit.
pub fn read_document(alloc: Global, bytes: &[u8]) -> Result<Value, VnfdFault>
    ensures found { IfOk result (λ value. document bytes.now ≡ Ok (view value)) }
    ensures refused { IfErr result (λ fault. IsFault fault (fault_of (document bytes.now))) }
{
    if bytes.len() > BYTES_MAX {
        return Err(VnfdFault::TooMany(label("bytes")));
    }
    match object(alloc, bytes)? {
        Some(value) => Ok(value),
        None => Err(VnfdFault::NotJson),
    }
}

/// The JSON object that the bytes are, where they are one.
fn object(alloc: Global, bytes: &[u8]) -> Result<Option<Value>, VnfdFault>
    ensures ok { IfOk result (λ value. object_of bytes.now ≡ option_map view value) }
    ensures only { IfErr result (λ fault. fault ≡ VnfdFault.Memory) }
{
    match Value::from_slice(alloc, bytes) {
        Ok(value) => {
            if value.is_object() {
                Ok(Some(value))
            } else {
                Ok(None)
            }
        }
        Err(error) => {
            if error.is_memory() {
                Err(VnfdFault::Memory)
            } else {
                Ok(None)
            }
        }
    }
}
