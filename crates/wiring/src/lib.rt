// The tree's shape: wirings as an interface, the full tree, and the tree that a table lists.
#![tactic(auto)]

mod cabinets;
mod card_id;
mod full;
mod wire;
mod wired;

pub use cabinets::Cabinet;
pub use card_id::CardId;
pub use full::FullTree;
pub use wire::Wiring;
pub use wired::WiredTree;
