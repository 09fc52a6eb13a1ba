//! The words that tell of an attempt.
ghost use Rattle.std.specs.Option.{option_map_or};
ghost use Rattle.std.specs.Prelude.{◌≡◌, ◌++◌, OnOk, [], decimal, option_copied, slice_get};
ghost use Rattle.json_views.specs.Resources.{link_name, machine_id, storage_id};
ghost use Rattle.lcm_model.specs.Operations.{verb_done};
ghost use Rattle.history_lines.specs.Words.{attempt_words, change_in, change_words, done_words, port_name, resource_id};
ghost use Rattle.history_lines.specs.Words.{type_word, verb_word, way_word};

use crate::words::{push, push_number, push_occurrence};
use lcm_events::{Change, Def, DefKind, Tag, Verb, Vnfd, Way};
use lcm_model::verb_in_way;
use occ_table::OccRow;
use std::alloc::AllocError;

/// The type of a resource.
fn type_word(kind: DefKind) -> &'static str
    ensures { result.now ≡ type_word kind }
{
    match kind {
        DefKind::Link => "VL",
        DefKind::Storage => "STORAGE",
        DefKind::Compute => "COMPUTE",
        DefKind::Port => "LINKPORT",
    }
}

/// What is done to a resource.
fn verb_word(verb: Verb) -> &'static str
    ensures { result.now ≡ verb_word verb }
{
    match verb {
        Verb::Create => "create",
        Verb::Remove => "remove",
        Verb::Start => "start",
        Verb::Stop => "stop",
    }
}

/// Whether a change is made or undone.
fn way_word(way: Way) -> &'static str
    ensures { result.now ≡ way_word way }
{
    match way {
        Way::Forward => "forward",
        Way::Undo => "undo",
    }
}

/// The name of a VDU, empty where the descriptor has none of this number.
fn vdu_name<'a>(vnfd: &'a Vnfd, vdu: u16) -> &'a str
    ensures { result.now ≡ option_map_or (λ u. u.name) (slice_get vnfd.now.vdus vdu) [] }
{
    match vnfd.vdus.as_slice().get(usize::from(vdu)) {
        Some(vdu) => vdu.name.as_str(),
        None => "",
    }
}

/// The name of a storage, empty where the descriptor has none of this number.
fn storage_name<'a>(vnfd: &'a Vnfd, storage: u16) -> &'a str
    ensures { result.now ≡ option_map_or (λ x. x.name) (slice_get vnfd.now.storages storage) [] }
{
    match vnfd.storages.as_slice().get(usize::from(storage)) {
        Some(storage) => storage.name.as_str(),
        None => "",
    }
}

/// The name of a link, empty where the descriptor has none of this number.
fn link_name<'a>(vnfd: &'a Vnfd, link: u16) -> &'a str
    ensures { result.now ≡ link_name vnfd.now link }
{
    match vnfd.links.as_slice().get(usize::from(link)) {
        Some(name) => name.as_str(),
        None => "",
    }
}

/// The name of a connection point, empty where the descriptor has none of this number.
fn port_name<'a>(vnfd: &'a Vnfd, port: u16) -> &'a str
    ensures { result.now ≡ port_name vnfd.now port }
{
    match vnfd.ports.as_slice().get(usize::from(port)) {
        Some(port) => port.name.as_str(),
        None => "",
    }
}

/// Adds the identifier of a machine.
#[tactic(auto, unfolding(json_views::specs::Resources::machine_id))]
fn push_machine(text: &mut Vec<u8>, vnfd: &Vnfd, def: &Def) -> Result<(), AllocError>
    ensures { OnOk result (text.new.items ≡ text.old.items ++ machine_id vnfd.now def.now.vdu def.now.serial) }
{
    push(text, vdu_name(vnfd, def.vdu).as_bytes())?;
    push(text, b"-")?;
    push_number(text, u64::from(def.serial))
}

/// Adds the identifier of a storage.
#[tactic(auto, unfolding(json_views::specs::Resources::storage_id))]
fn push_storage(text: &mut Vec<u8>, vnfd: &Vnfd, def: &Def) -> Result<(), AllocError>
    ensures { OnOk result (text.new.items ≡ text.old.items
        ++ storage_id vnfd.now def.now.vdu def.now.serial def.now.item) }
{
    push_machine(text, vnfd, def)?;
    push(text, b"/")?;
    push(text, storage_name(vnfd, def.item).as_bytes())
}

/// Adds the identifier of a resource.
fn push_resource(text: &mut Vec<u8>, vnfd: &Vnfd, def: &Def) -> Result<(), AllocError>
    ensures { OnOk result (text.new.items ≡ text.old.items ++ resource_id vnfd.now def.now.kind def.now) }
{
    match def.kind {
        DefKind::Link => push(text, link_name(vnfd, def.item).as_bytes()),
        DefKind::Storage => push_storage(text, vnfd, def),
        DefKind::Compute => push_machine(text, vnfd, def),
        DefKind::Port => {
            push_machine(text, vnfd, def)?;
            push(text, b"/")?;
            push(text, port_name(vnfd, def.item).as_bytes())
        }
    }
}

/// Adds what an attempt in this way at a change does, and to which resource.
#[tactic(auto, unfolding(crate::specs::Words::change_words))]
fn push_change(text: &mut Vec<u8>, vnfd: &Vnfd, way: Way, change: &Change) -> Result<(), AllocError>
    ensures { OnOk result (text.new.items ≡ text.old.items ++ change_words vnfd.now way change.now) }
{
    push(text, b" ")?;
    push(text, verb_word(verb_in_way(way, change.verb)).as_bytes())?;
    push(text, b" ")?;
    push(text, type_word(change.def.kind).as_bytes())?;
    push(text, b" ")?;
    push_resource(text, vnfd, &change.def)
}

/// The change with this number, where there is a row that has it.
fn change_in<'a>(row: Option<&'a OccRow>, change: u16) -> Option<&'a Change>
    ensures { option_copied result ≡ change_in (option_copied row.entry) change }
{
    row?.changes.as_slice().get(usize::from(change))
}

/// Adds an attempt, and what it does where the row of its occurrence and the descriptor of its instance are there.
#[tactic(auto, unfolding(crate::specs::Words::attempt_words))]
pub fn push_attempt(
    text: &mut Vec<u8>,
    manager: u32,
    tag: &Tag,
    row: Option<&OccRow>,
    vnfd: Option<&Vnfd>,
) -> Result<(), AllocError>
    ensures { OnOk result (text.new.items ≡ text.old.items
        ++ attempt_words manager tag.now (option_copied row.entry) (option_copied vnfd.entry)) }
{
    push_occurrence(text, manager, tag.occ)?;
    push(text, b" change ")?;
    push_number(text, u64::from(tag.change))?;
    push(text, b" attempt ")?;
    push_number(text, u64::from(tag.attempt))?;
    push(text, b" ")?;
    push(text, way_word(tag.way).as_bytes())?;
    push_done(text, tag.way, vnfd, change_in(row, tag.change))
}

/// Adds what an attempt does, where its change and the descriptor are known.
fn push_done(
    text: &mut Vec<u8>,
    way: Way,
    vnfd: Option<&Vnfd>,
    change: Option<&Change>,
) -> Result<(), AllocError>
    ensures { OnOk result (text.new.items ≡ text.old.items
        ++ done_words way (option_copied vnfd.entry) (option_copied change.entry)) }
{
    match (vnfd, change) {
        (Some(vnfd), Some(change)) => push_change(text, vnfd, way, change),
        _ => Ok(()),
    }
}
