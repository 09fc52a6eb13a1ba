//! Where a program listens, in words.
ghost use Rattle.std.specs.Prelude.{◌≡◌, IfOk};
ghost use Rattle.std.specs.String.{string_bytes};
ghost use Rattle.served_edges.specs.Lines.{listening_line, no_listening_line};

use std::alloc::{AllocError, Global};

/// The line that says that a program listens at these addresses, the orchestrator's and the element manager's.
///
/// Its one refusal is want of memory.
pub fn listening_line(
    alloc: Global,
    orchestrator: &str,
    element: &str,
) -> Result<String, AllocError>
    ensures { IfOk result (λ line. string_bytes line ≡ listening_line orchestrator.now element.now) }
{
    format!(in alloc;
        "vnfm: listening at {orchestrator} for the orchestrator, at {element} for the element manager\n"
    )
}

/// The line that says that one of these addresses can't be had.
///
/// Its one refusal is want of memory.
pub fn no_listening_line(
    alloc: Global,
    orchestrator: &str,
    element: &str,
) -> Result<String, AllocError>
    ensures { IfOk result (λ line. string_bytes line ≡ no_listening_line orchestrator.now element.now) }
{
    format!(in alloc;
        "vnfm: one of these addresses can't be had: {orchestrator} for the orchestrator, {element} for the element manager\n"
    )
}
