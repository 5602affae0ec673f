// One station of a card: how it stands, which word may pass, and what becomes of one that does.
#![tactic(auto)]

mod channel;
mod hold;
mod plan;

pub use channel::Channel;
pub use hold::{Here, Hold, Input, Station};
pub use plan::{Plan, up_plan};
