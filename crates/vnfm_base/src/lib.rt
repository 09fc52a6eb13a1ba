//! The words that every crate above is made of: names, lines, texts, bytes, moments and identifiers.
#![tactic(auto)]

mod bytes;
mod decimal;
mod identifier;
mod limits;
mod line;
mod moment;
mod name;
mod plain;
mod text;

pub use bytes::Bytes;
pub use decimal::whole_number;
pub use identifier::{Kind, ident, ident_read, ident_text};
pub use limits::MAX_RECORD;
pub use line::{LINE_MAX, Line, LineFault};
pub use moment::{MAX_MOMENT, Moment, moment_text};
pub use name::{NAME_MAX, Name};
pub use text::{Text, TextFault};
