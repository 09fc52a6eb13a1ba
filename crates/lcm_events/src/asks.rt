//! What an operation is asked to do.

use crate::listed::Listed;
use vnfm_base::{Line, Name};

/// Out or in.
///
/// Source: SOL 003 5.5.2.5 (ScaleVnfRequest).
#[derive(Clone, Copy)]
pub enum ScaleWay {
    /// SCALE_OUT.
    Out,
    /// SCALE_IN.
    In,
}

/// Whether what runs is stopped at once or first brought to rest.
///
/// Source: SOL 003 5.5.2.10 (OperateVnfRequest), 5.5.2.8 (TerminateVnfRequest).
#[derive(Clone, Copy)]
pub enum StopType {
    /// FORCEFUL: at once.
    Forceful,
    /// GRACEFUL: brought to rest first.
    Graceful,
}

/// The kind of an operation.
///
/// Source: SOL 003 5.5.2.13 (VnfLcmOpOcc).
#[derive(Clone, Copy, PartialEq, Eq)]
pub enum OpKind {
    /// INSTANTIATE.
    Instantiate,
    /// SCALE.
    Scale,
    /// SCALE_TO_LEVEL.
    ScaleToLevel,
    /// HEAL.
    Heal,
    /// OPERATE.
    Operate,
    /// TERMINATE.
    Terminate,
    /// CHANGE_FLAVOUR, which no occurrence has.
    ChangeFlavour,
}

/// A machine of an instance with its disks and connection points: a VDU's number and a serial number.
#[derive(Clone, Copy)]
pub struct Vnfc {
    /// The number of the VDU.
    pub vdu: u16,
    /// The serial number, from 1.
    pub serial: u32,
}

/// A level of an aspect.
///
/// Source: SOL 003 5.5.2.6 (ScaleVnfToLevelRequest).
#[derive(Clone, Copy)]
pub struct AspectLevel {
    /// The aspect's name.
    pub aspect: Name,
    /// The level.
    pub level: u32,
}

/// What SCALE_TO_LEVEL aims at.
///
/// Source: SOL 003 5.5.2.6 (ScaleVnfToLevelRequest).
#[derive(Drop)]
pub enum Aim {
    /// The instantiation level of this name.
    Level(Name),
    /// These levels; the other aspects keep theirs.
    Aspects(Listed<AspectLevel>),
}

/// What an operation is asked to do.
///
/// Source: SOL 003 5.5.2.4 to 5.5.2.10 (InstantiateVnfRequest to OperateVnfRequest).
pub enum Ask {
    /// INSTANTIATE: make the first resources.
    Instantiate {
        /// The flavour.
        flavour: Name,
        /// The instantiation level; the default where there is none.
        level: Option<Name>,
    },
    /// SCALE: move one aspect by steps.
    Scale {
        /// Out or in.
        way: ScaleWay,
        /// The aspect.
        aspect: Name,
        /// How many steps.
        steps: u32,
    },
    /// SCALE_TO_LEVEL: move several aspects.
    ScaleToLevel(Aim),
    /// HEAL: make new what is named, all where nothing is named, and what isn't whole.
    Heal {
        /// Why.
        cause: Option<Line>,
        /// Which machines.
        named: Listed<Vnfc>,
    },
    /// OPERATE: start or stop.
    Operate {
        /// Start, not stop.
        started: bool,
        /// How to stop.
        stop: Option<StopType>,
    },
    /// TERMINATE: take all away.
    Terminate {
        /// How.
        mode: StopType,
        /// Seconds to wait, which nothing measures.
        timeout: Option<u32>,
    },
}

impl Drop for Ask {
    // Written out, so that the proof of a caller calls it and doesn't take the ask apart at each of its ends.
    fn drop(self) {
        match self {
            Ask::Instantiate {
                flavour: _,
                level: _,
            } => {}
            Ask::Scale {
                way: _,
                aspect: _,
                steps: _,
            } => {}
            Ask::ScaleToLevel(_) => {}
            Ask::Heal { cause: _, named: _ } => {}
            Ask::Operate {
                started: _,
                stop: _,
            } => {}
            Ask::Terminate {
                mode: _,
                timeout: _,
            } => {}
        }
    }
}
