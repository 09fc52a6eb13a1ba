//! Copies of what an event brings.

ghost use Rattle.std.specs.Prelude.{◌≡◌, IfOk};

use lcm_events::{Aspect, Filter, Level, Listed, Row, Vdu, Vnfd};
use std::alloc::{AllocError, Global};
use vnfm_base::Line;

/// A copy of a line, where there is one.
pub fn copied_line(line: &Option<Line>) -> Result<Option<Line>, AllocError>
    ensures { IfOk result (λ l. l ≡ line.now) }
{
    match line {
        Some(text) => Ok(Some(text.clone()?)),
        None => Ok(None),
    }
}

/// A copy of a filter, in memory of its own.
///
/// Source: own rule.
pub fn copied_filter(alloc: Global, filter: &Filter) -> Result<Filter, AllocError>
    ensures { IfOk result (λ f. f ≡ filter.now) }
{
    let vnfds = filter.vnfds.as_slice().to_vec(alloc)?;
    let instances = filter.instances.as_slice().to_vec(alloc)?;
    let names = filter.names.as_slice().to_vec(alloc)?;
    let notices = filter.notices.as_slice().to_vec(alloc)?;
    let operations = filter.operations.as_slice().to_vec(alloc)?;
    let states = filter.states.as_slice().to_vec(alloc)?;
    Ok(Filter {
        vnfds: Listed::of(vnfds),
        instances: Listed::of(instances),
        names: Listed::of(names),
        notices: Listed::of(notices),
        operations: Listed::of(operations),
        states: Listed::of(states),
    })
}

/// A copy of a kind of machine.
fn copied_vdu(alloc: Global, vdu: &Vdu) -> Result<Vdu, AllocError>
    ensures { IfOk result (λ v. v ≡ vdu.now) }
{
    let storages = vdu.storages.as_slice().to_vec(alloc)?;
    Ok(Vdu {
        name: vdu.name,
        memory: vdu.memory,
        cpus: vdu.cpus,
        maximum: vdu.maximum,
        initial: vdu.initial,
        storages: Listed::of(storages),
    })
}

/// Copies of kinds of machines.
fn copied_vdus(alloc: Global, vdus: &[Vdu]) -> Result<Vec<Vdu>, AllocError>
    ensures { IfOk result (λ v. v.items ≡ vdus.now) }
{
    let mut copies = Vec::new(alloc);
    for vdu in vdus {
        copies.push(copied_vdu(alloc, vdu)?)?;
    }
    Ok(copies)
}

/// A copy of what the steps of an aspect add to a kind of machines.
fn copied_row(alloc: Global, row: &Row) -> Result<Row, AllocError>
    ensures { IfOk result (λ r. r ≡ row.now) }
{
    let deltas = row.deltas.as_slice().to_vec(alloc)?;
    Ok(Row {
        vdu: row.vdu,
        deltas: Listed::of(deltas),
    })
}

/// Copies of what the steps of an aspect add.
fn copied_rows(alloc: Global, rows: &[Row]) -> Result<Vec<Row>, AllocError>
    ensures { IfOk result (λ r. r.items ≡ rows.now) }
{
    let mut copies = Vec::new(alloc);
    for row in rows {
        copies.push(copied_row(alloc, row)?)?;
    }
    Ok(copies)
}

/// A copy of a scaling aspect.
fn copied_aspect(alloc: Global, aspect: &Aspect) -> Result<Aspect, AllocError>
    ensures { IfOk result (λ a. a ≡ aspect.now) }
{
    let rows = copied_rows(alloc, aspect.rows.as_slice())?;
    Ok(Aspect {
        name: aspect.name,
        maximum: aspect.maximum,
        steps: aspect.steps,
        rows: Listed::of(rows),
    })
}

/// Copies of scaling aspects.
fn copied_aspects(alloc: Global, aspects: &[Aspect]) -> Result<Vec<Aspect>, AllocError>
    ensures { IfOk result (λ a. a.items ≡ aspects.now) }
{
    let mut copies = Vec::new(alloc);
    for aspect in aspects {
        copies.push(copied_aspect(alloc, aspect)?)?;
    }
    Ok(copies)
}

/// A copy of an instantiation level.
fn copied_level(alloc: Global, level: &Level) -> Result<Level, AllocError>
    ensures { IfOk result (λ l. l ≡ level.now) }
{
    let numbers = level.numbers.as_slice().to_vec(alloc)?;
    Ok(Level {
        name: level.name,
        numbers: Listed::of(numbers),
    })
}

/// Copies of instantiation levels.
fn copied_levels(alloc: Global, levels: &[Level]) -> Result<Vec<Level>, AllocError>
    ensures { IfOk result (λ l. l.items ≡ levels.now) }
{
    let mut copies = Vec::new(alloc);
    for level in levels {
        copies.push(copied_level(alloc, level)?)?;
    }
    Ok(copies)
}

/// A copy of a descriptor.
pub fn copied_vnfd(alloc: Global, vnfd: &Vnfd) -> Result<Vnfd, AllocError>
    ensures { IfOk result (λ d. d ≡ vnfd.now) }
{
    let vdus = copied_vdus(alloc, vnfd.vdus.as_slice())?;
    let storages = vnfd.storages.as_slice().to_vec(alloc)?;
    let links = vnfd.links.as_slice().to_vec(alloc)?;
    let ports = vnfd.ports.as_slice().to_vec(alloc)?;
    let aspects = copied_aspects(alloc, vnfd.aspects.as_slice())?;
    let levels = copied_levels(alloc, vnfd.levels.as_slice())?;
    Ok(Vnfd {
        descriptor_id: vnfd.descriptor_id,
        provider: vnfd.provider,
        product_name: vnfd.product_name,
        software_version: vnfd.software_version,
        descriptor_version: vnfd.descriptor_version,
        flavour_id: vnfd.flavour_id,
        vdus: Listed::of(vdus),
        storages: Listed::of(storages),
        links: Listed::of(links),
        ports: Listed::of(ports),
        aspects: Listed::of(aspects),
        levels: Listed::of(levels),
        default_level: vnfd.default_level,
    })
}
