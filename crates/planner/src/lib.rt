// Plans a batch of route orders, line by line.
#![tactic(auto)]

mod cabinets;
mod faults;
mod orders;
mod plans;
mod printing;
mod reading;

pub use cabinets::read_wiring;
pub use faults::PlanFault;
pub use orders::answer_order;
pub use plans::{Plan, plan_order};
