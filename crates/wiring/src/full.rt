// The full tree of 1 to 5 levels. Its methods stand in the file below.
ghost use Rattle.std.specs.Prelude.{◌≤◌};

pub(crate) mod trees;

// The full tree of so many cards.
#[derive(Clone, Copy)]
pub struct FullTree {
    cards: u16,
    ghost some: { 1 ≤ cards },
    ghost few: { cards ≤ 31 },
}
