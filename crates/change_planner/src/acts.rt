//! The work that is asked of the infrastructure for a change.

ghost use Rattle.std.specs.Prelude.{◌≡◌, ◌++◌, ◌∷◌, IfOk, List, OnOk, [], filter_map, map, option_copied, slice_get};
ghost use Rattle.std.specs.Prelude.{unwrap_or};
ghost use Rattle.std.specs.Option.{option_map_or};
ghost use Rattle.lcm_model.specs.Vnfcs.{def_of, link_def};
ghost use Rattle.change_planner.specs.Acts.{ActsAreOnWhatStands, act, done_on, held, place_of, processors};
ghost use Rattle.change_planner.specs.Acts.{resource_held, size, template_name, vdu_name};
ghost use Rattle.change_planner.specs.Tags.{IsOfAttempt, act_of};
ghost use Rattle.lcm_events.specs.declared.attempts.Tag.{Tag};
ghost use Rattle.lcm_events.specs.declared.events.Event.{Event};
ghost use Rattle.lcm_model.specs.Grants.{granted_place};
ghost use Rattle.lcm_model.specs.Needs.{port_links};

use crate::rolls::storages_in;
use lcm_events::{Act, Change, Def, DefKind, Held, Holding, Names, Place, Verb, Vnfd, Way};
use std::alloc::{AllocError, Global};
use vnfm_base::Name;

/// The item of the holding with this definition.
fn held_in<'a>(holding: &'a Holding, def: &Def) -> Option<&'a Held>
    ensures { option_copied result ≡ held holding.now def.now }
{
    for item in holding.items.as_slice() {
        if item.def == *def {
            return Some(item);
        }
    }
    None
}

/// Puts the name of a resource last, where it is held.
fn push_resource(names: &mut Names, holding: &Holding, def: &Def) -> Result<(), AllocError>
    ensures { OnOk result (names.new ≡ names.old ++ filter_map (resource_held holding.now) (def.now ∷ [])) }
{
    if let Some(item) = held_in(holding, def) {
        names.push(item.resource)?;
    }
    Ok(())
}

/// Puts the names of a machine's storages last, where they are held.
fn push_storages(
    names: &mut Names,
    holding: &Holding,
    storages: &[u16],
    vdu: u16,
    serial: u32,
) -> Result<(), AllocError>
    ensures { OnOk result (names.new ≡ names.old ++ filter_map (resource_held holding.now)
        (map (def_of DefKind.Storage vdu serial) storages.now)) }
{
    for item in storages {
        let def = Def {
            kind: DefKind::Storage,
            item: *item,
            vdu,
            serial,
        };
        push_resource(names, holding, &def)?;
    }
    Ok(())
}

/// The number of the link of a port, where it has one.
fn link_of(vnfd: &Vnfd, port: u16) -> Option<u16>
    ensures { port_links vnfd.now port ≡ option_map_or (λ link. link_def link ∷ []) result [] }
{
    match vnfd.ports.as_slice().get(port as usize) {
        Some(port) => port.link,
        None => None,
    }
}

/// Puts the name of the link of a port last, where it has one that is held.
fn push_link(names: &mut Names, vnfd: &Vnfd, holding: &Holding, port: u16) -> Result<(), AllocError>
    ensures { OnOk result (names.new ≡ names.old ++ filter_map (resource_held holding.now) (port_links vnfd.now port)) }
{
    match link_of(vnfd, port) {
        Some(link) => {
            let def = Def {
                kind: DefKind::Link,
                item: link,
                vdu: 65_535,
                serial: 0,
            };
            push_resource(names, holding, &def)
        }
        None => Ok(()),
    }
}

/// The names of the resources that the work with this verb on a definition is done on, as far as they are held.
fn done_on_in(
    alloc: Global,
    vnfd: &Vnfd,
    holding: &Holding,
    verb: Verb,
    def: &Def,
) -> Result<Names, AllocError>
    ensures { IfOk result (λ names. names ≡ done_on vnfd.now holding.now verb def.now) }
{
    let mut names = Names::new(alloc);
    match (verb, def.kind) {
        (Verb::Create, DefKind::Compute) => {
            push_storages(
                &mut names,
                holding,
                storages_in(vnfd, def.vdu),
                def.vdu,
                def.serial,
            )?;
        }
        (Verb::Create, DefKind::Port) => {
            let compute = Def {
                kind: DefKind::Compute,
                item: 0,
                vdu: def.vdu,
                serial: def.serial,
            };
            push_resource(&mut names, holding, &compute)?;
            push_link(&mut names, vnfd, holding, def.item)?;
        }
        (Verb::Create, DefKind::Link | DefKind::Storage) => {}
        (Verb::Remove | Verb::Start | Verb::Stop, _) => push_resource(&mut names, holding, def)?,
    }
    Ok(names)
}

/// The empty name.
fn no_name() -> Name
    ensures { result ≡ [] }
{
    Name::of(b"").unwrap()
}

/// The name of a VDU, empty where there is none.
fn name_of_vdu(vnfd: &Vnfd, vdu: u16) -> Name
    ensures { result ≡ option_map_or (λ u. u.name) (slice_get vnfd.now.vdus vdu) [] }
{
    match vnfd.vdus.as_slice().get(vdu as usize) {
        Some(kind) => kind.name,
        None => no_name(),
    }
}

/// The name of the VDU of a definition, empty for a link.
fn vdu_name_in(vnfd: &Vnfd, def: &Def) -> Name
    ensures { result ≡ vdu_name vnfd.now def.now.kind def.now }
{
    match def.kind {
        DefKind::Link => no_name(),
        DefKind::Storage | DefKind::Compute | DefKind::Port => name_of_vdu(vnfd, def.vdu),
    }
}

/// The name of a storage, empty where there is none.
fn name_of_storage(vnfd: &Vnfd, storage: u16) -> Name
    ensures { result ≡ option_map_or (λ s. s.name) (slice_get vnfd.now.storages storage) [] }
{
    match vnfd.storages.as_slice().get(storage as usize) {
        Some(storage) => storage.name,
        None => no_name(),
    }
}

/// The name of a port, empty where there is none.
fn name_of_port(vnfd: &Vnfd, port: u16) -> Name
    ensures { result ≡ option_map_or (λ p. p.name) (slice_get vnfd.now.ports port) [] }
{
    match vnfd.ports.as_slice().get(port as usize) {
        Some(port) => port.name,
        None => no_name(),
    }
}

/// The name of a link, empty where there is none.
fn name_of_link(vnfd: &Vnfd, link: u16) -> Name
    ensures { result ≡ unwrap_or (slice_get vnfd.now.links link) [] }
{
    match vnfd.links.as_slice().get(link as usize) {
        Some(link) => *link,
        None => no_name(),
    }
}

/// The descriptor's name of the link, storage or port of a definition, and of the VDU for a compute.
fn template_name_in(vnfd: &Vnfd, def: &Def) -> Name
    ensures { result ≡ template_name vnfd.now def.now.kind def.now }
{
    match def.kind {
        DefKind::Link => name_of_link(vnfd, def.item),
        DefKind::Storage => name_of_storage(vnfd, def.item),
        DefKind::Compute => name_of_vdu(vnfd, def.vdu),
        DefKind::Port => name_of_port(vnfd, def.item),
    }
}

/// The bytes of a compute's memory and of a storage, else 0.
fn size_in(vnfd: &Vnfd, def: &Def) -> u64
    ensures { result ≡ size vnfd.now def.now.kind def.now }
{
    match def.kind {
        DefKind::Compute => match vnfd.vdus.as_slice().get(def.vdu as usize) {
            Some(kind) => kind.memory,
            None => 0,
        },
        DefKind::Storage => match vnfd.storages.as_slice().get(def.item as usize) {
            Some(storage) => storage.size,
            None => 0,
        },
        DefKind::Link | DefKind::Port => 0,
    }
}

/// The processors of a compute, else 0.
fn processors_in(vnfd: &Vnfd, def: &Def) -> u32
    ensures { result ≡ processors vnfd.now def.now.kind def.now }
{
    match def.kind {
        DefKind::Compute => match vnfd.vdus.as_slice().get(def.vdu as usize) {
            Some(kind) => kind.cpus,
            None => 0,
        },
        DefKind::Link | DefKind::Storage | DefKind::Port => 0,
    }
}

/// The work with this verb on a definition of the descriptor, at a place.
///
/// Its template is the descriptor's name of the link, storage or port, and the VDU's for a compute; its VDU is empty
/// for a link; its size is in bytes. What it is done on are resources that are held: for a compute that is made its
/// storages by item, for a port that is made its compute and then its link, for what is removed, started or stopped its
/// own. A name that the descriptor lacks is empty, and a resource that isn't held is left out. `AllocError` is want of
/// memory.
///
/// Source: SOL 001, Vdu.Compute, Vdu.VirtualBlockStorage, VduCp, VnfVirtualLink; SOL 003 9.5.2.3 (Grant).
pub fn act_in(
    alloc: Global,
    vnfd: &Vnfd,
    holding: &Holding,
    verb: Verb,
    def: &Def,
    place: &Place,
) -> Result<Act, AllocError>
    ensures { IfOk result (λ work. work ≡ act vnfd.now holding.now verb def.now place.now) }
{
    let on = done_on_in(alloc, vnfd, holding, verb, def)?;
    Ok(Act {
        verb,
        kind: def.kind,
        template: template_name_in(vnfd, def),
        vdu: vdu_name_in(vnfd, def),
        serial: def.serial,
        vim: place.vim,
        zone: place.zone,
        size: size_in(vnfd, def),
        cpus: processors_in(vnfd, def),
        on,
    })
}

/// Where a change does its work: what is made, at the place given; all else, where it is held.
fn place_in(holding: &Holding, verb: Verb, def: &Def, place: &Place) -> Place
    ensures { result ≡ place_of holding.now verb def.now place.now }
{
    match verb {
        Verb::Create => *place,
        Verb::Remove | Verb::Start | Verb::Stop => match held_in(holding, def) {
            Some(item) => item.place,
            None => *place,
        },
    }
}

/// The work that makes a change of the descriptor's plan, over what stands: a creation at this place, which is the
/// grant's for it, all else where its resource is held. Where an attempt at the change may begin, it is the attempt's
/// work.
/// `AllocError` is want of memory.
///
/// Source: SOL 001, Vdu.Compute, Vdu.VirtualBlockStorage, VduCp, VnfVirtualLink; SOL 003 9.5.2.3 (Grant).
pub fn forward_act(
    alloc: Global,
    vnfd: &Vnfd,
    holding: &Holding,
    change: &Change,
    place: &Place,
) -> Result<Act, AllocError>
    ensures work { IfOk result (λ work. work ≡ act vnfd.now holding.now change.now.verb change.now.def
        (place_of holding.now change.now.verb change.now.def place.now)) }
    ensures of_attempt { (H : List Event) (t : Tag) → IsOfAttempt vnfd.now holding.now change.now H t
        → t.way ≡ Way.Forward → (change.now.verb ≡ Verb.Create → granted_place H t.occ t.change ≡ Some place.now)
        → IfOk result (λ work. act_of H t ≡ Some work) }
{
    let place = place_in(holding, change.verb, &change.def, place);
    act_in(alloc, vnfd, holding, change.verb, &change.def, &place)
}

/// Over the holding of an instance after a history, an act whose needs are held names the resources that the history
/// has, and the place where the history last had the definition, where it isn't a making.
///
/// Source: own rule.
pub fn acts_are_on_what_stands()
    ensures { ActsAreOnWhatStands }
{}
