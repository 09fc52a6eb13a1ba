//! What a line says: a call of a manager, or an infrastructure's reply.

use lcm_events::{Act, Tag};
use vnfm_base::Name;

/// Bytes of the longest line, with its line feed. An act on 128 names, each as long as a name can be, fits.
pub const LINE_BYTES: usize = 131_072;

/// A call: what the manager of this number asks of an attempt.
///
/// Source: own format, docs/VIM.md.
#[derive(Drop)]
pub enum VimCall {
    /// That it begin.
    Begin {
        /// The number of the manager.
        manager: u32,
        /// The attempt.
        tag: Tag,
        /// Its work.
        act: Act,
    },
    /// How it stands.
    Look {
        /// The number of the manager.
        manager: u32,
        /// The attempt.
        tag: Tag,
    },
    /// That it end.
    Abort {
        /// The number of the manager.
        manager: u32,
        /// The attempt.
        tag: Tag,
    },
}

/// A reply: the first two answer a begin, the last an abort, the others a look.
///
/// Source: own format, docs/VIM.md.
#[derive(Clone, Copy)]
pub enum VimReply {
    /// The work is begun, now or by an earlier call with this tag.
    Begun,
    /// The work is refused with this code.
    Refused(u32),
    /// There is no work with this tag.
    Absent,
    /// It goes on.
    Running,
    /// It is done on the resource of this name.
    Done(Name),
    /// It ended with this code, and isn't done.
    Broken(u32),
    /// It was aborted, and isn't done.
    Aborted,
    /// It was asked to end.
    Asked,
}
