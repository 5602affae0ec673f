// Routes, and what they ask for. The methods stand in the files below.
ghost use Rattle.std.specs.Prelude.{◌^◌, ◌<◌, ◌≤◌};

mod descending;
mod reading;
mod writing;

pub use descending::Descents;
pub use reading::routes_ending_going_up;

// A route: nine bits, read from the highest down. Clauses read its bits, with no Model: a struct that holds a struct with one is not copied where it is
// passed by value and used again, and a head and a plan hold a route.
#[derive(Clone, Copy)]
pub struct Route {
    bits: u16,
    ghost nine: { bits < 512 },
}

// The sides of a way down, at most seven: one bit for each, the first one highest. Bits and no Vec, since send uses no heap.
// Clauses read them by sides_in, with no Model: a Copy type owes an inverse, and the proof that its bits come back is longer than what it would save.
#[derive(Clone, Copy)]
pub struct Sides {
    bits: u16,
    count: u16,
    ghost few: { count ≤ 7 },
    ghost fit: { bits < 2 ^ count },
}

// What a route asks for: so many links up, then the turn, then down by these sides.
#[derive(Clone, Copy)]
pub struct Course {
    pub ups: u16,
    pub sides: Sides,
}
