// The simulator: the tree by plain lists and loops, from the rules of the documents. It shares nothing with the router but the names of a
// station and an input, which a fire is called with.
mod cards;
mod families;
mod fires;
mod hops;
mod journeys;
mod licences;
mod passages;
mod progress;
mod sends;
mod simulators;
mod takes;
pub mod words;

pub use families::Family;
pub use journeys::Journey;
pub use licences::{Licences, Rule, Scope};
pub use progress::INPUTS;
pub use simulators::{No, Simulator};
