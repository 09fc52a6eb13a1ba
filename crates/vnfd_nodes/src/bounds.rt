//! The limits of node templates.
ghost use Rattle.std.specs.Prelude.{◌≡◌};
ghost use Rattle.vnfd_nodes.specs.declared.bounds.TheConstants.{CPUS, INSTANCES, LINKS, NO_MAXIMUM, PORTS, SIZE};
ghost use Rattle.vnfd_nodes.specs.declared.bounds.TheConstants.{STORAGES, VDUS};

/// The most VDUs of a descriptor.
pub const VDUS: usize = 64;

/// The most storages of a descriptor.
pub const STORAGES: usize = 128;

/// The most links of a descriptor.
pub const LINKS: usize = 64;

/// The most ports of a descriptor.
pub const PORTS: usize = 256;

/// The most processors of a VDU.
pub const CPUS: u32 = 65_535;

/// The greatest number that a VDU's maximum of instances may be.
pub const INSTANCES: u32 = 65_535;

/// The greatest number of instances where a VDU has none: no count exceeds it.
pub const NO_MAXIMUM: u32 = 4_294_967_295;

/// Bytes of the largest size, 2 ^ 60.
pub const SIZE: u64 = 1_152_921_504_606_846_976;

/// The limits, as numbers: 64 VDUs, 128 storages, 64 links, 256 ports; 65,535 processors and instances of a VDU, of
/// which 4,294,967,295 stands for no maximum; sizes of 2 ^ 60 bytes.
pub fn limits()
    ensures vdus { VDUS ≡ 64 }
    ensures storages { STORAGES ≡ 128 }
    ensures links { LINKS ≡ 64 }
    ensures ports { PORTS ≡ 256 }
    ensures cpus { CPUS ≡ 65535 }
    ensures instances { INSTANCES ≡ 65535 }
    ensures no_maximum { NO_MAXIMUM ≡ 4294967295 }
    ensures size { SIZE ≡ 1152921504606846976 }
{}
