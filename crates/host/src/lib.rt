// A tree for a host in another language: its calls by plain numbers and slices, each answered by one number.
#![tactic(auto)]

mod calls;
mod lines;
mod set_up;
mod told;
mod tree;

pub use lines::RuleLine;
pub use tree::HostTree;
