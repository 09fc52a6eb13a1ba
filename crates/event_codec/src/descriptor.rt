//! Descriptors: their parts, the order in which they stand, and the numbers that name them.
ghost use Rattle.std.specs.Prelude.{◌≡◌, ◌&&◌, Bool, length, nat_lt};
ghost use Rattle.std.specs.List.{list_all};
ghost use Rattle.event_codec.specs.Gives.{Gives};
ghost use Rattle.event_codec.specs.Readers.{vdu_at, storage_at, link_at, port_at, row_at, rows_at, aspect_at, level_at};
ghost use Rattle.event_codec.specs.Readers.{scaling_at, vnfd_at};
ghost use Rattle.event_codec.specs.Valid.{in_order, names_entries, optionally_below};
ghost use Rattle.lcm_events.specs.Descriptors.{is_rising, is_name_before, is_valid_steps};

use crate::fault::DecodeFault;
use crate::input::Input;
use crate::lists::{Read, entries, many};
use lcm_events::{Aspect, Level, Listed, Port, Row, Storage, Vdu, Vnfd};
use std::alloc::Global;
use vnfm_base::Name;

/// What stands in a list in one order.
trait Ranked {
    // the first stands before the second
    ghost before: { Self → Self → Bool };

    fn is_before(&self, other: &Self) -> bool
        ensures { result ≡ before self.now other.now };
}

impl Ranked for Name {
    ghost before = { is_name_before };

    fn is_before(&self, other: &Name) -> bool {
        self.cmp(other).is_lt()
    }
}

impl Ranked for Vdu {
    ghost before = { λ a b. is_name_before a.name b.name };

    fn is_before(&self, other: &Vdu) -> bool {
        self.name.is_before(&other.name)
    }
}

impl Ranked for Storage {
    ghost before = { λ a b. is_name_before a.name b.name };

    fn is_before(&self, other: &Storage) -> bool {
        self.name.is_before(&other.name)
    }
}

impl Ranked for Port {
    ghost before = { λ a b. is_name_before a.name b.name };

    fn is_before(&self, other: &Port) -> bool {
        self.name.is_before(&other.name)
    }
}

impl Ranked for Aspect {
    ghost before = { λ a b. is_name_before a.name b.name };

    fn is_before(&self, other: &Aspect) -> bool {
        self.name.is_before(&other.name)
    }
}

impl Ranked for Level {
    ghost before = { λ a b. is_name_before a.name b.name };

    fn is_before(&self, other: &Level) -> bool {
        self.name.is_before(&other.name)
    }
}

impl Ranked for u16 {
    ghost before = { nat_lt };

    fn is_before(&self, other: &u16) -> bool {
        *self < *other
    }
}

impl Ranked for Row {
    ghost before = { λ r s. nat_lt r.vdu s.vdu };

    fn is_before(&self, other: &Row) -> bool {
        self.vdu < other.vdu
    }
}

/// Whether each item stands before the next one.
fn rises<T: Ranked>(items: &[T]) -> bool
    ensures { result ≡ is_rising T.before items.now }
{
    let [first, rest @ ..] = items else {
        return true;
    };
    let mut last = first;
    for item in rest {
        if !last.is_before(item) {
            return false;
        }
        last = item;
    }
    true
}

impl Read for Vdu {
    ghost at = { λ _. vdu_at };

    #[tactic(auto, unfolding(crate::specs::Readers::vdu_at))]
    fn read(alloc: Global, input: &mut Input, _numbers: usize) -> Result<Vdu, DecodeFault> {
        let name = input.name()?;
        let memory = input.u64()?;
        let cpus = input.u32()?;
        let maximum = input.u32()?;
        let initial = input.u32()?;
        let storages = many(alloc, input, 0)?;
        if !rises(storages.as_slice()) {
            return Err(DecodeFault::NotEvent);
        }
        Ok(Vdu {
            name,
            memory,
            cpus,
            maximum,
            initial,
            storages,
        })
    }
}

impl Read for Storage {
    ghost at = { λ _. storage_at };

    #[tactic(auto, unfolding(crate::specs::Readers::storage_at))]
    fn read(_alloc: Global, input: &mut Input, _numbers: usize) -> Result<Storage, DecodeFault> {
        let name = input.name()?;
        let size = input.u64()?;
        Ok(Storage { name, size })
    }
}

/// The number of a port's link, where it has one.
#[tactic(auto, unfolding(crate::specs::Readers::link_at))]
fn link(input: &mut Input) -> Result<Option<u16>, DecodeFault>
    ensures { Gives input.new result (link_at input.old) }
{
    let number = input.u16()?;
    Ok(if number == 65_535 { None } else { Some(number) })
}

impl Read for Port {
    ghost at = { λ _. port_at };

    #[tactic(auto, unfolding(crate::specs::Readers::port_at))]
    fn read(_alloc: Global, input: &mut Input, _numbers: usize) -> Result<Port, DecodeFault> {
        let name = input.name()?;
        let vdu = input.u16()?;
        let link = link(input)?;
        Ok(Port { name, vdu, link })
    }
}

impl Read for Row {
    ghost at = { row_at };

    #[tactic(auto, unfolding(crate::specs::Readers::row_at))]
    fn read(alloc: Global, input: &mut Input, numbers: usize) -> Result<Row, DecodeFault> {
        let vdu = input.u16()?;
        let deltas = entries(alloc, input, numbers, 0)?;
        Ok(Row { vdu, deltas })
    }
}

impl Read for Aspect {
    ghost at = { λ _. aspect_at };

    #[tactic(auto, unfolding(crate::specs::Readers::aspect_at, crate::specs::Readers::rows_at))]
    fn read(alloc: Global, input: &mut Input, _numbers: usize) -> Result<Aspect, DecodeFault> {
        let name = input.name()?;
        let maximum = input.u32()?;
        let steps = input.u16()?;
        let rows = many(alloc, input, steps as usize)?;
        if !do_steps_fit(maximum, steps) || !rises(rows.as_slice()) {
            return Err(DecodeFault::NotEvent);
        }
        Ok(Aspect {
            name,
            maximum,
            steps,
            rows,
        })
    }
}

/// Whether an aspect with this maximum may have so many steps.
fn do_steps_fit(maximum: u32, steps: u16) -> bool
    ensures { result ≡ is_valid_steps maximum steps }
{
    if maximum == 0 {
        steps == 0
    } else {
        steps == 1 || steps as u32 == maximum
    }
}

impl Read for Level {
    ghost at = { level_at };

    #[tactic(auto, unfolding(crate::specs::Readers::level_at))]
    fn read(alloc: Global, input: &mut Input, numbers: usize) -> Result<Level, DecodeFault> {
        let name = input.name()?;
        let numbers = entries(alloc, input, numbers, 0)?;
        Ok(Level { name, numbers })
    }
}

/// The aspects, the levels that have a number for each, and the default level.
#[tactic(auto, unfolding(crate::specs::Readers::scaling_at))]
fn scaling(
    alloc: Global,
    input: &mut Input,
) -> Result<(Listed<Aspect>, (Listed<Level>, u16)), DecodeFault>
    ensures { Gives input.new result (scaling_at input.old) }
{
    let aspects = many(alloc, input, 0)?;
    let levels = many(alloc, input, aspects.len())?;
    let default_level = input.u16()?;
    Ok((aspects, (levels, default_level)))
}

/// A descriptor.
#[tactic(auto, unfolding(crate::specs::Readers::vnfd_at))]
pub(crate) fn vnfd(alloc: Global, input: &mut Input) -> Result<Vnfd, DecodeFault>
    ensures { Gives input.new result (vnfd_at input.old) }
{
    let descriptor_id = input.name()?;
    let provider = input.name()?;
    let product_name = input.name()?;
    let software_version = input.name()?;
    let descriptor_version = input.name()?;
    let flavour_id = input.name()?;
    let vdus = many(alloc, input, 0)?;
    let storages = many(alloc, input, 0)?;
    let links = many(alloc, input, 0)?;
    let ports = many(alloc, input, 0)?;
    let (aspects, (levels, default_level)) = scaling(alloc, input)?;
    let vnfd = Vnfd {
        descriptor_id,
        provider,
        product_name,
        software_version,
        descriptor_version,
        flavour_id,
        vdus,
        storages,
        links,
        ports,
        aspects,
        levels,
        default_level,
    };
    if !is_in_order(&vnfd) || !entries_are_named(&vnfd) {
        return Err(DecodeFault::NotEvent);
    }
    Ok(vnfd)
}

/// Whether the named things stand in the order of their names.
fn is_in_order(vnfd: &Vnfd) -> bool
    ensures { result ≡ in_order vnfd.now }
{
    rises(vnfd.vdus.as_slice())
        && rises(vnfd.storages.as_slice())
        && rises(vnfd.links.as_slice())
        && rises(vnfd.ports.as_slice())
        && rises(vnfd.aspects.as_slice())
        && rises(vnfd.levels.as_slice())
}

/// Whether each number names an entry.
fn entries_are_named(vnfd: &Vnfd) -> bool
    ensures { result ≡ names_entries vnfd.now }
{
    let (vdus, storages, links) = (vnfd.vdus.len(), vnfd.storages.len(), vnfd.links.len());
    vdus_name_storages(vnfd.vdus.as_slice(), storages)
        && ports_name_entries(vnfd.ports.as_slice(), vdus, links)
        && aspects_name_vdus(vnfd.aspects.as_slice(), vdus)
        && (vnfd.default_level as usize) < vnfd.levels.len()
}

fn vdus_name_storages(vdus: &[Vdu], storages: usize) -> bool
    ensures { result ≡ list_all (λ m. list_all (λ s. nat_lt s storages) m.storages) vdus.now }
{
    vdus.iter()
        .all(|vdu| are_below(vdu.storages.as_slice(), storages))
}

fn are_below(numbers: &[u16], most: usize) -> bool
    ensures { result ≡ list_all (λ s. nat_lt s most) numbers.now }
{
    numbers.iter().all(|number| (*number as usize) < most)
}

fn ports_name_entries(ports: &[Port], vdus: usize, links: usize) -> bool
    ensures { result ≡ list_all (λ p. nat_lt p.vdu vdus && optionally_below links p.link) ports.now }
{
    ports.iter().all(|port| (port.vdu as usize) < vdus && is_link_below(port.link, links))
}

fn is_link_below(link: Option<u16>, most: usize) -> bool
    ensures { result ≡ optionally_below most link }
{
    match link {
        None => true,
        Some(number) => (number as usize) < most,
    }
}

fn aspects_name_vdus(aspects: &[Aspect], vdus: usize) -> bool
    ensures { result ≡ list_all (λ a. list_all (λ r. nat_lt r.vdu vdus) a.rows) aspects.now }
{
    aspects
        .iter()
        .all(|aspect| rows_name_vdus(aspect.rows.as_slice(), vdus))
}

fn rows_name_vdus(rows: &[Row], vdus: usize) -> bool
    ensures { result ≡ list_all (λ r. nat_lt r.vdu vdus) rows.now }
{
    rows.iter().all(|row| (row.vdu as usize) < vdus)
}
