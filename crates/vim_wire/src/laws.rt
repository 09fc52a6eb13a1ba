//! What holds of all lines, as the contract of a call that does nothing.
ghost use Rattle.vim_wire.specs.Prefix.{NoLineBeginsAnother};

/// No line begins another, and so no two calls, no two replies, and no call and reply have one line.
///
/// Source: own format, docs/VIM.md.
pub fn no_line_begins_another()
    ensures { NoLineBeginsAnother }
{}
