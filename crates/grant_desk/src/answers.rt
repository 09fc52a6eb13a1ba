//! What the orchestrator answers.
ghost use Rattle.std.specs.Prelude.{◌≡◌, IfErr, IfOk, true};
ghost use Rattle.grant_desk.specs.Answers.{answer_of, grant_of, granted, is_kept, later};
ghost use Rattle.vnfm_base.specs.Text.{IsLine};
ghost use Rattle.std.specs.Option.{IfSome, option_copied};

use crate::grants::read_grant;
use crate::rows::GrantRows;
use site_traits::Heard;
use std::alloc::{AllocError, Global};
use vnfm_base::{Line, LineFault};

/// What an answer to a grant request, or to a poll, says.
///
/// Source: SOL 003 9.4.2 (Grants), 9.4.3 (Individual grant).
#[derive(Drop)]
pub enum GrantAnswer {
    /// 200 or 201 with a grant that can be read.
    Granted(GrantRows),
    /// 202: it comes later, at this location. A poll may be told none.
    Later(Option<Line>),
    /// 403.
    Denied,
    /// Every other answer: another status, a grant that can't be read, or a 202 to a grant request without a location.
    Trouble,
}

/// What an answer to a grant request (`asked`), or else to a poll, says.
///
/// A grant is a JSON object with `id`, a name that isn't empty, and `addResources`, `removeResources` and
/// `updateResources`, each absent or a list of objects with `resourceDefinitionId`, a name, and `vimConnectionId` and
/// `zoneId`, names, each empty where it is absent. Other members are passed over. Whatever has another form, `null`
/// among it, makes the answer `Trouble`. `AllocError` is want of memory, and comes for no other status than 200, 201
/// and 202.
///
/// Source: SOL 003 9.4.2 (Grants), 9.4.3 (Individual grant), 9.5.2.3 (Grant).
pub fn read_answer(alloc: Global, asked: bool, heard: &Heard) -> Result<GrantAnswer, AllocError>
    ensures answer { IfOk result (λ answer. answer ≡ answer_of asked heard.now) }
    ensures memory { IfErr result (λ e. is_kept heard.now ≡ true) }
{
    match heard.status() {
        200 | 201 => granted(alloc, heard.body()),
        202 => later(alloc, asked, heard.location()),
        403 => Ok(GrantAnswer::Denied),
        _ => Ok(GrantAnswer::Trouble),
    }
}

/// What an answer with a grant in its body says.
fn granted(alloc: Global, body: &[u8]) -> Result<GrantAnswer, AllocError>
    ensures { IfOk result (λ answer. answer ≡ granted (grant_of body.now)) }
{
    match read_grant(alloc, body)? {
        Some(rows) => Ok(GrantAnswer::Granted(rows)),
        None => Ok(GrantAnswer::Trouble),
    }
}

/// What an answer without a grant says, which comes later at this location.
fn later(alloc: Global, asked: bool, location: Option<&[u8]>) -> Result<GrantAnswer, AllocError>
    requires { IfSome (option_copied location) IsLine }
    ensures { IfOk result (λ answer. answer ≡ later asked (option_copied location.entry)) }
{
    match location {
        Some(line) => Ok(GrantAnswer::Later(Some(line_of(alloc, line)?))),
        None => {
            if asked {
                Ok(GrantAnswer::Trouble)
            } else {
                Ok(GrantAnswer::Later(None))
            }
        }
    }
}

/// A line of these bytes.
fn line_of(alloc: Global, bytes: &[u8]) -> Result<Line, AllocError>
    requires { IsLine bytes.now }
    ensures { IfOk result (λ line. line ≡ bytes.now) }
{
    match Line::of(alloc, bytes) {
        Ok(line) => Ok(line),
        Err(LineFault::Memory) => Err(AllocError),
        Err(LineFault::NotLine) => unreachable!(),
    }
}
