// The tree that runs.
#![tactic(auto)]

mod calls;
mod inner;
mod steps;
mod tree;
mod way;

pub use tree::Tree;
