// The calls of a tree for a host in C. The tree lies in memory of the host's own; each call has the pointer to it, and answers one number.
#![tactic(auto)]

mod begin;
mod calls;
mod reads;
mod set_up;

// The pointer to the tree is null.
pub(crate) const NO_TREE: u64 = 104 << 32;
