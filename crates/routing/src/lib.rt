// Routes over any wiring: the walk, the hops of a packet, and the route maker.
#![tactic(auto)]

mod ancestors;
mod measured;
mod orders;
mod subtrees;
mod walks;
mod worked;

pub use measured::Measured;
pub use orders::order;
pub use subtrees::{cards_reached, hops_a_word, path_hops, stands_over, subtree_size};
pub use walks::{Walk, walk_route};
pub use worked::worked_routes;
