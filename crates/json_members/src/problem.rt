//! The body of a refusal.
ghost use Rattle.std.specs.Prelude.{◌≡◌, IfOk, IsUtf8};
ghost use Rattle.serde_json.specs.View.{view};
ghost use Rattle.json_members.specs.Problem.{problem, problem_text};

use crate::written;
use serde_json::{Value, json};
use std::alloc::{AllocError, Global};
use vnfm_base::Bytes;

/// The body of a refusal with this status and this detail.
///
/// Source: RFC 9457 3 (ProblemDetails).
pub fn problem_view(alloc: Global, status: u16, detail: &str) -> Result<Bytes, AllocError>
    ensures { IfOk result (λ body. body ≡ problem_text status detail.now) }
{
    let value = problem_value(alloc, status, detail)?;
    written(alloc, &value)
}

/// The same, as a value.
///
/// Source: RFC 9457 3 (ProblemDetails).
pub fn problem_value(alloc: Global, status: u16, detail: &str) -> Result<Value, AllocError>
    ensures { IfOk result (λ value. view value ≡ problem status detail.now) }
{
    json!(in alloc; {"detail": detail, "status": status})
}
