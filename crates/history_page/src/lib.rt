//! What happened, as one page of HTML without scripts and without links to anything outside it: for each VNF instance a
//! line of time with a bar for each operation, and a table with the attempts of each.
#![tactic(auto)]

mod attempts;
mod drawing;
mod following;
mod labels;
mod page;
mod scale;
mod shown;
mod stories;
mod style;
mod table;

pub use following::{About, HistoryPage};
