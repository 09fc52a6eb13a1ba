//! Changes in words: what is done to which resource.

use itoa::Buffer;
use lcm_events::{Change, Def, DefKind, Verb, Vnfd};
use std::alloc::{AllocError, Global};

/// A change in words, as `create machine web-3` or `remove storage web-3/data`; empty where there is none.
///
/// Source: own rule.
pub fn change_text(
    alloc: Global,
    vnfd: &Vnfd,
    change: Option<&Change>,
) -> Result<String, AllocError> {
    let mut text = String::new(alloc);
    match change {
        Some(change) => push_change(&mut text, vnfd, change)?,
        None => {}
    }
    Ok(text)
}

/// Puts a change in words last.
fn push_change(text: &mut String, vnfd: &Vnfd, change: &Change) -> Result<(), AllocError> {
    text.push_str(verb_word(change.verb))?;
    text.push_str(" ")?;
    text.push_str(resource_word(change.def.kind))?;
    text.push_str(" ")?;
    push_resource(text, vnfd, &change.def)
}

/// Puts the identifier of a resource last, as views show it.
fn push_resource(text: &mut String, vnfd: &Vnfd, def: &Def) -> Result<(), AllocError> {
    match def.kind {
        DefKind::Link => text.push_str(link_name(vnfd, def.item)),
        DefKind::Compute => push_machine(text, vnfd, def),
        DefKind::Storage => {
            push_machine(text, vnfd, def)?;
            text.push_str("/")?;
            text.push_str(storage_name(vnfd, def.item))
        }
        DefKind::Port => {
            push_machine(text, vnfd, def)?;
            text.push_str("/")?;
            text.push_str(port_name(vnfd, def.item))
        }
    }
}

/// Puts the identifier of a machine last.
fn push_machine(text: &mut String, vnfd: &Vnfd, def: &Def) -> Result<(), AllocError> {
    let mut digits = Buffer::new();
    text.push_str(vdu_name(vnfd, def.vdu))?;
    text.push_str("-")?;
    text.push_str(digits.format(def.serial))
}

/// What is done.
fn verb_word(verb: Verb) -> &'static str {
    match verb {
        Verb::Create => "create",
        Verb::Remove => "remove",
        Verb::Start => "start",
        Verb::Stop => "stop",
    }
}

/// To what.
fn resource_word(kind: DefKind) -> &'static str {
    match kind {
        DefKind::Link => "link",
        DefKind::Storage => "storage",
        DefKind::Compute => "machine",
        DefKind::Port => "port",
    }
}

/// The name of a VDU, empty where the descriptor has none of this number.
fn vdu_name<'a>(vnfd: &'a Vnfd, vdu: u16) -> &'a str {
    match vnfd.vdus.as_slice().get(usize::from(vdu)) {
        Some(vdu) => vdu.name.as_str(),
        None => "",
    }
}

/// The name of a storage, empty where the descriptor has none of this number.
fn storage_name<'a>(vnfd: &'a Vnfd, storage: u16) -> &'a str {
    match vnfd.storages.as_slice().get(usize::from(storage)) {
        Some(storage) => storage.name.as_str(),
        None => "",
    }
}

/// The name of a link, empty where the descriptor has none of this number.
fn link_name<'a>(vnfd: &'a Vnfd, link: u16) -> &'a str {
    match vnfd.links.as_slice().get(usize::from(link)) {
        Some(name) => name.as_str(),
        None => "",
    }
}

/// The name of a connection point, empty where the descriptor has none of this number.
fn port_name<'a>(vnfd: &'a Vnfd, port: u16) -> &'a str {
    match vnfd.ports.as_slice().get(usize::from(port)) {
        Some(port) => port.name.as_str(),
        None => "",
    }
}
