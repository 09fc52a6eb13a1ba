//! What the body of a request for a task of an instance asks for, by the instance's descriptor.
ghost use Rattle.std.specs.Prelude.{◌≡◌, IfOk, IfSome};
ghost use Rattle.change_planner.specs.Records.{NamesFew};
ghost use Rattle.lcm_api.specs.Asked.{GivesAsked, NamesFewTexts, ask_by, asked_in};

use json_bodies::{
    BodyFault, HealBody, InstantiateBody, OperateBody, ScaleBody, TerminateBody, machines_named,
    read_heal, read_instantiate, read_operate, read_scale, read_scale_to_level, read_terminate,
};
use lcm_events::{Aim, Ask, OpKind, Vnfd};
use std::alloc::{AllocError, Global};

/// What the body of a request for a task of an instance says.
#[derive(Drop)]
pub enum AskedBody {
    /// It is that of an instantiate request.
    Instantiate(InstantiateBody),
    /// It is that of a scale request.
    Scale(ScaleBody),
    /// It is that of a request to scale to a level.
    ScaleToLevel(Aim),
    /// It is that of a heal request.
    Heal(HealBody),
    /// It is that of an operate request.
    Operate(OperateBody),
    /// It is that of a terminate request.
    Terminate(TerminateBody),
}

/// Reads the body of a request for this operation; none exactly where it isn't served.
pub fn read_asked(alloc: Global, kind: OpKind, bytes: &[u8]) -> Option<Result<AskedBody, BodyFault>>
    ensures gives { GivesAsked result (asked_in kind bytes.now) }
    ensures few { IfSome result (λ read. IfOk read NamesFewTexts) }
{
    match kind {
        OpKind::Instantiate => { Some(read_instantiate(alloc, bytes).map(AskedBody::Instantiate)) }
        OpKind::Scale => Some(read_scale(alloc, bytes).map(AskedBody::Scale)),
        OpKind::ScaleToLevel => Some(read_scale_to_level(alloc, bytes).map(
            AskedBody::ScaleToLevel,
        )),
        OpKind::Heal => Some(read_heal(alloc, bytes).map(AskedBody::Heal)),
        OpKind::Operate => Some(read_operate(alloc, bytes).map(AskedBody::Operate)),
        OpKind::Terminate => Some(read_terminate(alloc, bytes).map(AskedBody::Terminate)),
        OpKind::ChangeFlavour => None,
    }
}

/// What a body asks an instance of this descriptor for. The one refusal is want of memory, for the machines that a heal
/// request names.
pub fn ask_by(alloc: Global, vnfd: &Vnfd, body: AskedBody) -> Result<Ask, AllocError>
    requires { NamesFewTexts body }
    ensures ask { IfOk result (λ ask. ask ≡ ask_by vnfd.now body) }
    ensures few { IfOk result NamesFew }
{
    Ok(match body {
        AskedBody::Instantiate(body) => Ask::Instantiate {
            flavour: body.flavour,
            level: body.level,
        },
        AskedBody::Scale(body) => Ask::Scale {
            way: body.way,
            aspect: body.aspect,
            steps: body.steps,
        },
        AskedBody::ScaleToLevel(aim) => Ask::ScaleToLevel(aim),
        AskedBody::Heal(body) => {
            let named = machines_named(alloc, vnfd, body.named.as_slice())?;
            Ask::Heal {
                cause: body.cause,
                named,
            }
        }
        AskedBody::Operate(body) => Ask::Operate {
            started: body.started,
            stop: body.stop,
        },
        AskedBody::Terminate(body) => Ask::Terminate {
            mode: body.mode,
            timeout: body.timeout,
        },
    })
}
