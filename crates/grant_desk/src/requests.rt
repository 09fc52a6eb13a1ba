//! The body of a grant request.
ghost use Rattle.std.specs.Prelude.{◌≡◌, IfOk, IsUtf8, OnOk, Some, string_bytes};
ghost use Rattle.serde_json.specs.Read.{read};
ghost use Rattle.serde_json.specs.View.{view};
ghost use Rattle.held_items.specs.Items.{AreInOrder};
ghost use Rattle.vnfm_base.specs.Ident.{IsIdentNumber};
ghost use Rattle.json_members.specs.Text.{with_value};
ghost use Rattle.grant_desk.specs.Requests.{instance_id, links, occurrence_id, operation_word, request, request_text};

use crate::entries::write_entries;
use crate::parts::Part;
use json_members::JsonText;
use lcm_events::{Ask, Change, Holding, OpKind, Vnfd};
use lcm_model::op_kind;
use serde_json::{Value, json};
use std::alloc::{AllocError, Global};
use uuid::Uuid;
use vnfm_base::{Bytes, Kind, ident};

/// Who asks for a grant: the manager's number, and the numbers of the instance and the occurrence.
///
/// Source: SOL 003 9.5.2.2 (GrantRequest).
#[derive(Clone, Copy)]
pub struct GrantAsker {
    /// The number of the manager.
    pub manager: u32,
    /// The number of the instance.
    pub instance: u64,
    /// The number of the occurrence.
    pub occ: u64,
}

/// The body of the grant request for an operation with this plan: a JSON object as compact text.
///
/// A change that creates is asked for in `addResources`, one that removes in `removeResources`, one that starts or
/// stops in
/// `updateResources`, each in the order of the plan, under the identifier `d` and its number. What the descriptor lacks
/// has an empty name. What isn't created names its resource, where it stands. The time is linear in the changes, times
/// the logarithm of what stands. `AllocError` is want of memory.
///
/// Condition: what stands is in order of definition; the numbers of the instance and the occurrence are from 1 to 2^62
/// - 1. Source: SOL 003 9.4.2 (Grants), 9.5.2.2 (GrantRequest).
#[tactic(auto, unfolding(crate::specs::Requests::request_text))]
pub fn grant_body(
    alloc: Global,
    vnfd: &Vnfd,
    holding: &Holding,
    who: &GrantAsker,
    ask: &Ask,
    changes: &[Change],
) -> Result<Bytes, AllocError>
    requires order { AreInOrder holding.now.items }
    requires instance { IsIdentNumber who.now.instance }
    requires occ { IsIdentNumber who.now.occ }
    ensures text { IfOk result (λ body. body ≡ request_text vnfd.now holding.now who.now ask.now changes.now) }
    ensures reads { IfOk result (λ body. IsUtf8 body × (read body
        ≡ Some (request vnfd.now holding.now who.now ask.now changes.now))) }
{
    let mut text = JsonText::new(alloc);
    write_request(&mut text, alloc, vnfd, holding, who, ask, changes)?;
    Ok(text.into_bytes())
}

/// Writes the request member by member, in byte order of their names.
fn write_request(
    text: &mut JsonText,
    alloc: Global,
    vnfd: &Vnfd,
    holding: &Holding,
    who: &GrantAsker,
    ask: &Ask,
    changes: &[Change],
) -> Result<(), AllocError>
    requires order { AreInOrder holding.now.items }
    requires instance { IsIdentNumber who.now.instance }
    requires occ { IsIdentNumber who.now.occ }
    ensures { OnOk result (text.new
        ≡ with_value (request vnfd.now holding.now who.now ask.now changes.now) text.old) }
{
    let instance = instance_id(alloc, who.manager, who.instance)?;
    let occ = occurrence_id(alloc, who.manager, who.occ)?;
    let links = links_value(alloc, instance.as_str(), occ.as_str())?;
    text.begin_object()?;
    text.member(alloc, "_links", &links)?;
    text.name(alloc, "addResources")?;
    write_entries(text, alloc, vnfd, holding, Part::Add, changes)?;
    text.text_member(alloc, "flavourId", vnfd.flavour_id.as_str())?;
    text.member(alloc, "isAutomaticInvocation", &Value::Bool(false))?;
    text.text_member(alloc, "operation", operation_word(op_kind(ask)))?;
    text.name(alloc, "removeResources")?;
    write_entries(text, alloc, vnfd, holding, Part::Remove, changes)?;
    text.name(alloc, "updateResources")?;
    write_entries(text, alloc, vnfd, holding, Part::Update, changes)?;
    text.text_member(alloc, "vnfInstanceId", instance.as_str())?;
    text.text_member(alloc, "vnfLcmOpOccId", occ.as_str())?;
    text.text_member(alloc, "vnfdId", vnfd.descriptor_id.as_str())?;
    text.end_object()
}

/// The text of the identifier of an instance.
#[tactic(auto, unfolding(crate::specs::Requests::instance_id, vnfm_base::specs::Ident::ident_text))]
fn instance_id(alloc: Global, manager: u32, n: u64) -> Result<String, AllocError>
    requires { IsIdentNumber n }
    ensures { IfOk result (λ id. string_bytes id ≡ instance_id manager n) }
{
    let id = ident(manager, Kind::Instance, n);
    let mut buffer = Uuid::encode_buffer();
    String::from_str(alloc, id.hyphenated().encode_lower(&mut buffer))
}

/// The text of the identifier of an occurrence.
#[tactic(auto, unfolding(crate::specs::Requests::occurrence_id, vnfm_base::specs::Ident::ident_text))]
fn occurrence_id(alloc: Global, manager: u32, n: u64) -> Result<String, AllocError>
    requires { IsIdentNumber n }
    ensures { IfOk result (λ id. string_bytes id ≡ occurrence_id manager n) }
{
    let id = ident(manager, Kind::Occurrence, n);
    let mut buffer = Uuid::encode_buffer();
    String::from_str(alloc, id.hyphenated().encode_lower(&mut buffer))
}

/// The links to the instance and the occurrence with these identifiers.
fn links_value(alloc: Global, instance: &str, occ: &str) -> Result<Value, AllocError>
    ensures { IfOk result (λ value. view value ≡ links instance.now occ.now) }
{
    let mut at = String::from_str(alloc, "/vnflcm/v1/vnf_instances/")?;
    at.push_str(instance)?;
    let mut by = String::from_str(alloc, "/vnflcm/v1/vnf_lcm_op_occs/")?;
    by.push_str(occ)?;
    json!(in alloc; {"vnfInstance": {"href": at.as_str()}, "vnfLcmOpOcc": {"href": by.as_str()}})
}

fn operation_word(operation: OpKind) -> &'static str
    ensures { result.now ≡ operation_word operation }
{
    match operation {
        OpKind::Instantiate => "INSTANTIATE",
        OpKind::Scale => "SCALE",
        OpKind::ScaleToLevel => "SCALE_TO_LEVEL",
        OpKind::Heal => "HEAL",
        OpKind::Operate => "OPERATE",
        OpKind::Terminate => "TERMINATE",
        OpKind::ChangeFlavour => "CHANGE_FLAVOUR",
    }
}
