//! What the manager keeps of a VNF descriptor. Its named things are numbered from 0 in the byte order of their names.

use crate::listed::Listed;
use vnfm_base::Name;

/// A descriptor.
///
/// Source: SOL 001, the node type of a VNF and its properties.
pub struct Vnfd {
    /// Its identifier, `vnfdId`.
    pub descriptor_id: Name,
    /// Who provides it.
    pub provider: Name,
    /// The name of the product.
    pub product_name: Name,
    /// The version of the software.
    pub software_version: Name,
    /// The version of the descriptor.
    pub descriptor_version: Name,
    /// Its deployment flavour.
    pub flavour_id: Name,
    /// The kinds of machines.
    pub vdus: Listed<Vdu>,
    /// The kinds of disks.
    pub storages: Listed<Storage>,
    /// The names of the networks.
    pub links: Listed<Name>,
    /// The connection points of the VDUs.
    pub ports: Listed<Port>,
    /// What scales.
    pub aspects: Listed<Aspect>,
    /// The instantiation levels.
    pub levels: Listed<Level>,
    /// The number of the level that counts where none is asked for.
    pub default_level: u16,
}

impl Drop for Vnfd {
    // Written out, so that the proof of a caller calls it and doesn't take the descriptor apart at each of its ends.
    fn drop(self) {
        let Vnfd {
            descriptor_id: _,
            provider: _,
            product_name: _,
            software_version: _,
            descriptor_version: _,
            flavour_id: _,
            vdus: _,
            storages: _,
            links: _,
            ports: _,
            aspects: _,
            levels: _,
            default_level: _,
        } = self;
    }
}

/// A virtualisation deployment unit: a kind of machine.
///
/// Source: SOL 001, tosca.nodes.nfv.Vdu.Compute.
#[derive(Drop)]
pub struct Vdu {
    /// Its name.
    pub name: Name,
    /// Memory in bytes.
    pub memory: u64,
    /// Processors.
    pub cpus: u32,
    /// The greatest number of instances; 4,294,967,295 where the descriptor gives none.
    pub maximum: u32,
    /// The number of instances at level 0 of every aspect.
    pub initial: u32,
    /// The numbers of its storages, rising.
    pub storages: Listed<u16>,
}

/// A kind of disk.
///
/// Source: SOL 001, tosca.nodes.nfv.Vdu.VirtualBlockStorage.
#[derive(Clone, Copy)]
pub struct Storage {
    /// Its name.
    pub name: Name,
    /// Its size in bytes.
    pub size: u64,
}

/// A connection point of a VDU.
///
/// Source: SOL 001, tosca.nodes.nfv.VduCp.
#[derive(Clone, Copy)]
pub struct Port {
    /// Its name.
    pub name: Name,
    /// The number of its VDU.
    pub vdu: u16,
    /// The number of its link, where it has one.
    pub link: Option<u16>,
}

/// A scaling aspect.
///
/// Source: SOL 001, tosca.policies.nfv.ScalingAspects.
#[derive(Drop)]
pub struct Aspect {
    /// Its name.
    pub name: Name,
    /// Its greatest level.
    pub maximum: u32,
    /// How many deltas each row has: 0 where the maximum is 0, else 1 or the maximum.
    pub steps: u16,
    /// What its steps add, one row a VDU, in order of VDU.
    pub rows: Listed<Row>,
}

/// What the steps of an aspect add to one VDU. A single delta holds for every step.
///
/// Source: SOL 001, tosca.policies.nfv.VduScalingAspectDeltas.
#[derive(Drop)]
pub struct Row {
    /// The number of the VDU.
    pub vdu: u16,
    /// The instances that each step adds.
    pub deltas: Listed<u32>,
}

/// An instantiation level.
///
/// Source: SOL 001, tosca.policies.nfv.InstantiationLevels.
#[derive(Drop)]
pub struct Level {
    /// Its name.
    pub name: Name,
    /// The scale level of each aspect.
    pub numbers: Listed<u32>,
}

/// The scale level of each aspect of an instance.
pub type Levels = Listed<u32>;
