//! Machines by their identifiers: a VDU's name, a hyphen and a serial number in decimal.
ghost use Rattle.std.specs.List.{enumerate_from, list_any};
ghost use Rattle.std.specs.Prelude.{◌≡◌, ◌≤◌, ◌<◌, ◌^◌, ℕ, IfOk, IfSome, Some, filter_map, length, slice_get, take};
ghost use Rattle.json_bodies.specs.Machines.{machine_named, machine_of, machine_text, machines_named, same_machine};
ghost use Rattle.json_bodies.specs.Machines.{serial_in};

use lcm_events::{Listed, Vdu, Vnfc, Vnfd};
use std::alloc::{AllocError, Global};
use vnfm_base::{Name, whole_number};

/// The number that is that of no VDU.
const NO_VDU: usize = 65_535;

/// The machines of this descriptor that these texts are the identifiers of, each once, where it comes first. A text
/// that is the identifier of no machine is read as one that no instance has: number 0 of the VDU 65,535. It takes 8
/// bytes for each machine, and may need twice as many while it grows. The one refusal is want of memory.
///
/// Source: SOL 003 5.5.2.9 (HealVnfRequest); SOL 002 for `vnfcInstanceId`; the form of the identifiers is an own rule.
pub fn machines_named(
    alloc: Global,
    vnfd: &Vnfd,
    texts: &[Name],
) -> Result<Listed<Vnfc>, AllocError>
    ensures machines { IfOk result (λ machines. machines ≡ machines_named vnfd.now texts.now) }
    ensures few { IfOk result (λ machines. length machines ≤ length texts.now) }
{
    let mut machines: Vec<Vnfc> = Vec::new(alloc);
    for text in texts {
        let machine = machine_named(vnfd, text);
        if !is_among(machines.as_slice(), machine) {
            machines.push(machine)?;
        }
    }
    Ok(Listed::of(machines))
}

/// Whether a machine is in a list.
fn is_among(machines: &[Vnfc], machine: Vnfc) -> bool
    ensures { result ≡ list_any (same_machine machine) machines.now }
{
    for other in machines {
        if machine.vdu == other.vdu && machine.serial == other.serial {
            return true;
        }
    }
    false
}

/// The machine of this descriptor that the text is the identifier of, or one that no instance has.
fn machine_named(vnfd: &Vnfd, text: &Name) -> Vnfc
    ensures { result ≡ machine_named vnfd.now text.now }
{
    let vdus = numbered(vnfd.vdus.as_slice());
    match machine_in(vdus, text) {
        Some(machine) => machine,
        None => Vnfc {
            vdu: 65_535,
            serial: 0,
        },
    }
}

/// The VDUs that have a number.
fn numbered(vdus: &[Vdu]) -> &[Vdu]
    ensures first { result.now ≡ take 65535 vdus.now }
    ensures few { length result.now ≤ 65535 }
{
    if vdus.len() <= NO_VDU {
        vdus
    } else {
        &vdus[..NO_VDU]
    }
}

/// The machine that the text is the identifier of, of the first of these VDUs that has one.
fn machine_in(vdus: &[Vdu], text: &Name) -> Option<Vnfc>
    requires { length vdus.now ≤ 65535 }
    ensures { result ≡ slice_get (filter_map (machine_of text.now) (enumerate_from 0 vdus.now)) 0 }
{
    for (number, vdu) in vdus.iter().enumerate() {
        if let Some(serial) = serial_in(&vdu.name, text.as_str()) {
            return Some(Vnfc {
                vdu: number as u16,
                serial,
            });
        }
    }
    None
}

/// The serial number with which the text is the identifier of a machine of the VDU of this name.
fn serial_in(name: &Name, text: &str) -> Option<u32>
    ensures { result ≡ serial_in name.now text.now }
{
    let serial = serial_behind(name, text)?;
    if serial <= u32::MAX as u64 {
        Some(serial as u32)
    } else {
        None
    }
}

/// The number in decimal behind the name and a hyphen.
fn serial_behind(name: &Name, text: &str) -> Option<u64>
    ensures found { IfSome result (λ s. (s < 2 ^ 64) × (text.now ≡ machine_text name.now s)) }
    ensures read { (s : ℕ) → s < 2 ^ 64 → text.now ≡ machine_text name.now s → result ≡ Some s }
{
    let behind = text.strip_prefix(name.as_str())?;
    let digits = behind.strip_prefix("-")?;
    whole_number(digits)
}
