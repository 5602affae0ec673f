// Words, heads, routes and packets as bits.
#![tactic(auto)]

mod arrivals;
mod delivered;
mod heads;
mod packets;
mod routes;
mod sides;
mod steps;
mod words;

pub use arrivals::Arrival;
pub use delivered::Delivered;
pub use heads::{Head, KeyWord, Mode};
pub use packets::check;
pub use routes::{Course, Descents, Route, Sides, routes_ending_going_up};
pub use sides::Side;
pub use steps::{advance, floods, stops, top_bit};
pub use words::Kind;
