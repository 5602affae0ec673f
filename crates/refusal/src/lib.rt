// Why a call is refused: one enum for each kind of caller, each case with its number, its place and its sentence.
#![tactic(auto)]

mod answer;
mod build;
mod drive;
mod fault;
mod order;
mod send;

pub use answer::Refusal;
pub use build::{LicenceFault, WiringFault};
pub use drive::{DeliveryFault, FireFault, TakeFault};
pub use fault::{Fault, write_sentence};
pub use order::OrderFault;
pub use send::{PacketFault, RouteFault};
