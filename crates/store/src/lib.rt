// The memory of a tree: rings of words, cards, and the table of all cards. This crate is no entry point: the tree above it asks and checks,
// and what it needs of a caller (room in a queue or an inbox) stands in its `requires`.
#![tactic(auto)]

mod card;
mod ring;
mod table;

pub use table::Table;
