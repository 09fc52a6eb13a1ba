//! Which descriptors are valid.

ghost use Rattle.std.specs.Prelude.{◌≡◌, ◌↔◌, ℕ, List, IsTrue, map, nat_le, nat_lt, zip, ◌&&◌};
ghost use Rattle.std.specs.List.{list_all};
ghost use Rattle.lcm_model.specs.Descriptors.{IsValid, are_levels_of, are_sorted, has_sorted_names, has_valid_counts};
ghost use Rattle.lcm_model.specs.Descriptors.{is_given, is_valid_aspect, is_valid_level, is_valid_port, is_valid_row};
ghost use Rattle.lcm_model.specs.Descriptors.{is_valid_storage, is_valid_vdu};
ghost use Rattle.lcm_events.specs.Descriptors.{is_name_before, is_rising, is_valid_steps};

use lcm_events::{Aspect, Level, Port, Row, Storage, Vdu, Vnfd};
use vnfm_base::Name;

/// Bytes of the largest memory and of the largest storage, 2 ^ 60.
const SIZE_MAX: u64 = 1_152_921_504_606_846_976;

/// What has a name.
trait Named {
    ghost name_of: { Self → List ℕ };

    fn name(&self) -> &Name
        ensures { result.now ≡ name_of self.now };
}

impl Named for Name {
    ghost name_of = { λ x. x };

    fn name(&self) -> &Name {
        self
    }
}

impl Named for Vdu {
    ghost name_of = { λ x. x.name };

    fn name(&self) -> &Name {
        &self.name
    }
}

impl Named for Storage {
    ghost name_of = { λ x. x.name };

    fn name(&self) -> &Name {
        &self.name
    }
}

impl Named for Port {
    ghost name_of = { λ x. x.name };

    fn name(&self) -> &Name {
        &self.name
    }
}

impl Named for Aspect {
    ghost name_of = { λ x. x.name };

    fn name(&self) -> &Name {
        &self.name
    }
}

impl Named for Level {
    ghost name_of = { λ x. x.name };

    fn name(&self) -> &Name {
        &self.name
    }
}

/// Whether the first name stands before the second in byte order.
fn is_before(a: &Name, b: &Name) -> bool
    ensures { result ≡ is_name_before a.now b.now }
{
    a < b
}

/// Whether the names of these things stand in byte order, each once.
#[tactic(auto, using(crate::proofs::ListLaws::rising_end_by))]
fn are_sorted_names<T: Named>(things: &[T]) -> bool
    ensures { result ≡ are_sorted (map T.name_of things.now) }
{
    for at in 1..things.len() {
        if !is_before(things[at - 1].name(), things[at].name()) {
            return false;
        }
    }
    true
}

/// Whether the numbers rise.
#[tactic(auto, using(crate::proofs::ListLaws::rising_end))]
fn are_rising(numbers: &[u16]) -> bool
    ensures { result ≡ is_rising nat_lt numbers.now }
{
    for at in 1..numbers.len() {
        if numbers[at - 1] >= numbers[at] {
            return false;
        }
    }
    true
}

/// Whether the rows rise by VDU.
#[tactic(auto, using(crate::proofs::ListLaws::rising_end_by))]
fn are_rows_rising(rows: &[Row]) -> bool
    ensures { result ≡ is_rising nat_lt (map (λ r. r.vdu) rows.now) }
{
    for at in 1..rows.len() {
        if rows[at - 1].vdu >= rows[at].vdu {
            return false;
        }
    }
    true
}

/// Whether a name isn't empty.
fn has_bytes(name: &Name) -> bool
    ensures { result ≡ is_given name.now }
{
    name.len() > 0
}

/// Whether these levels are of the descriptor.
///
/// Source: docs/MODEL.md, "A valid descriptor".
pub fn are_levels_in(vnfd: &Vnfd, levels: &[u32]) -> bool
    ensures { result ≡ are_levels_of vnfd.now levels.now }
{
    if levels.len() != vnfd.aspects.len() {
        return false;
    }
    are_within(vnfd.aspects.as_slice(), levels)
}

/// Whether each level is within its aspect's maximum.
fn are_within(aspects: &[Aspect], levels: &[u32]) -> bool
    ensures { result ≡ list_all (λ x. nat_le x.1 x.0.maximum) (zip aspects.now levels.now) }
{
    aspects
        .iter()
        .zip(levels.iter())
        .all(|(aspect, level)| *level <= aspect.maximum)
}

/// Whether each number names an entry of a list of this length.
fn are_numbers_below(numbers: &[u16], length: usize) -> bool
    ensures { result ≡ list_all (λ n. nat_lt n length) numbers.now }
{
    numbers.iter().all(|number| (*number as usize) < length)
}

/// Whether a VDU is valid.
fn is_valid_vdu_in(vnfd: &Vnfd, vdu: &Vdu) -> bool
    ensures { result ≡ is_valid_vdu vnfd.now vdu.now }
{
    let given = has_bytes(&vdu.name);
    let rising = are_rising(vdu.storages.as_slice());
    let known = are_numbers_below(vdu.storages.as_slice(), vnfd.storages.len());
    given
        && vdu.memory <= SIZE_MAX
        && 1 <= vdu.cpus
        && vdu.cpus <= 65_535
        && (vdu.maximum <= 65_535 || vdu.maximum == 4_294_967_295)
        && vdu.initial <= 65_535
        && rising
        && known
}

/// Whether a storage is valid.
fn is_valid_storage_in(storage: &Storage) -> bool
    ensures { result ≡ is_valid_storage storage.now }
{
    let given = has_bytes(&storage.name);
    given && storage.size <= SIZE_MAX
}

/// Whether a port is valid.
fn is_valid_port_in(vnfd: &Vnfd, port: &Port) -> bool
    ensures { result ≡ is_valid_port vnfd.now port.now }
{
    let given = has_bytes(&port.name);
    let linked = match port.link {
        Some(link) => (link as usize) < vnfd.links.len(),
        None => true,
    };
    given && (port.vdu as usize) < vnfd.vdus.len() && linked
}

/// Whether an aspect with this maximum may have so many deltas a row.
fn may_have_steps(maximum: u32, steps: u16) -> bool
    ensures { result ≡ is_valid_steps maximum steps }
{
    if maximum == 0 {
        steps == 0
    } else {
        steps == 1 || steps as u32 == maximum
    }
}

/// Whether a row is valid.
fn is_valid_row_in(vnfd: &Vnfd, steps: u16, row: &Row) -> bool
    ensures { result ≡ is_valid_row vnfd.now steps row.now }
{
    let small = are_deltas_small(row.deltas.as_slice());
    (row.vdu as usize) < vnfd.vdus.len() && row.deltas.len() == steps as usize && small
}

/// Whether each delta is within the limit.
fn are_deltas_small(deltas: &[u32]) -> bool
    ensures { result ≡ list_all (λ n. nat_le n 65535) deltas.now }
{
    deltas.iter().all(|delta| *delta <= 65_535)
}

/// Whether each row of an aspect is valid.
fn are_rows_valid(vnfd: &Vnfd, steps: u16, rows: &[Row]) -> bool
    ensures { result ≡ list_all (is_valid_row vnfd.now steps) rows.now }
{
    for row in rows {
        if !is_valid_row_in(vnfd, steps, row) {
            return false;
        }
    }
    true
}

/// Whether an aspect is valid.
fn is_valid_aspect_in(vnfd: &Vnfd, aspect: &Aspect) -> bool
    ensures { result ≡ is_valid_aspect vnfd.now aspect.now }
{
    let given = has_bytes(&aspect.name);
    let steps = may_have_steps(aspect.maximum, aspect.steps);
    let rising = are_rows_rising(aspect.rows.as_slice());
    let rows = are_rows_valid(vnfd, aspect.steps, aspect.rows.as_slice());
    given && aspect.maximum <= 1_000 && steps && rising && rows
}

/// Whether a level is valid.
fn is_valid_level_in(vnfd: &Vnfd, level: &Level) -> bool
    ensures { result ≡ is_valid_level vnfd.now level.now }
{
    let given = has_bytes(&level.name);
    let numbers = are_levels_in(vnfd, level.numbers.as_slice());
    given && numbers
}

/// Whether the counts of a descriptor are within the limits.
fn has_valid_counts_in(vnfd: &Vnfd) -> bool
    ensures { result ≡ has_valid_counts vnfd.now }
{
    vnfd.vdus.len() <= 64
        && vnfd.storages.len() <= 128
        && vnfd.links.len() <= 64
        && vnfd.ports.len() <= 256
        && vnfd.aspects.len() <= 16
        && vnfd.levels.len() <= 64
        && (vnfd.default_level as usize) < vnfd.levels.len()
}

/// Whether the names of each list of a descriptor are sorted.
fn has_sorted_names_in(vnfd: &Vnfd) -> bool
    ensures { result ≡ has_sorted_names vnfd.now }
{
    let vdus = are_sorted_names(vnfd.vdus.as_slice());
    let storages = are_sorted_names(vnfd.storages.as_slice());
    let links = are_sorted_names(vnfd.links.as_slice());
    let ports = are_sorted_names(vnfd.ports.as_slice());
    let aspects = are_sorted_names(vnfd.aspects.as_slice());
    let levels = are_sorted_names(vnfd.levels.as_slice());
    vdus && storages && links && ports && aspects && levels
}

/// Whether each VDU is valid.
fn are_vdus_valid(vnfd: &Vnfd) -> bool
    ensures { result ≡ list_all (is_valid_vdu vnfd.now) vnfd.now.vdus }
{
    for vdu in vnfd.vdus.as_slice() {
        if !is_valid_vdu_in(vnfd, vdu) {
            return false;
        }
    }
    true
}

/// Whether each storage is valid.
fn are_storages_valid(vnfd: &Vnfd) -> bool
    ensures { result ≡ list_all is_valid_storage vnfd.now.storages }
{
    for storage in vnfd.storages.as_slice() {
        if !is_valid_storage_in(storage) {
            return false;
        }
    }
    true
}

/// Whether each link has a name.
fn are_links_valid(vnfd: &Vnfd) -> bool
    ensures { result ≡ list_all is_given vnfd.now.links }
{
    for link in vnfd.links.as_slice() {
        if !has_bytes(link) {
            return false;
        }
    }
    true
}

/// Whether each port is valid.
fn are_ports_valid(vnfd: &Vnfd) -> bool
    ensures { result ≡ list_all (is_valid_port vnfd.now) vnfd.now.ports }
{
    for port in vnfd.ports.as_slice() {
        if !is_valid_port_in(vnfd, port) {
            return false;
        }
    }
    true
}

/// Whether each aspect is valid.
fn are_aspects_valid(vnfd: &Vnfd) -> bool
    ensures { result ≡ list_all (is_valid_aspect vnfd.now) vnfd.now.aspects }
{
    for aspect in vnfd.aspects.as_slice() {
        if !is_valid_aspect_in(vnfd, aspect) {
            return false;
        }
    }
    true
}

/// Whether each level is valid.
fn are_all_levels_valid(vnfd: &Vnfd) -> bool
    ensures { result ≡ list_all (is_valid_level vnfd.now) vnfd.now.levels }
{
    for level in vnfd.levels.as_slice() {
        if !is_valid_level_in(vnfd, level) {
            return false;
        }
    }
    true
}

/// Whether the descriptor and its flavour have names.
fn is_named(vnfd: &Vnfd) -> bool
    ensures { result ≡ (is_given vnfd.now.descriptor_id && is_given vnfd.now.flavour_id) }
{
    let descriptor = has_bytes(&vnfd.descriptor_id);
    let flavour = has_bytes(&vnfd.flavour_id);
    descriptor && flavour
}

/// Whether a descriptor is valid.
///
/// Source: own limits over SOL 001.
pub fn is_valid(vnfd: &Vnfd) -> bool
    ensures { IsTrue result ↔ IsValid vnfd.now }
{
    let named = is_named(vnfd);
    let counts = has_valid_counts_in(vnfd);
    let sorted = has_sorted_names_in(vnfd);
    let vdus = are_vdus_valid(vnfd);
    let storages = are_storages_valid(vnfd);
    let links = are_links_valid(vnfd);
    let ports = are_ports_valid(vnfd);
    let aspects = are_aspects_valid(vnfd);
    let levels = are_all_levels_valid(vnfd);
    named && counts && sorted && vdus && storages && links && ports && aspects && levels
}
