// The tree that a table lists. Its methods stand in the files below.
ghost use Rattle.wiring.specs.Shapes.{Lawful};
ghost use Rattle.wiring.specs.Linked.{linked_shape};

use packet::Side;

mod tables;
pub(crate) mod trees;

// What a card is linked to: its daughters, and its parent with the side of the parent on which it is.
#[derive(Clone, Copy)]
struct Links {
    left: Option<u16>,
    right: Option<u16>,
    parent: Option<(u16, Side)>,
}

const UNLINKED: Links = Links {
    left: None,
    right: None,
    parent: None,
};

// So many cards, and the links of each. An array and a count, no Vec: a table is read with no heap, and a wiring stays Copy.
#[derive(Clone, Copy)]
pub struct WiredTree {
    cards: u16,
    links: [Links; 31],
    ghost lawful: { Lawful (linked_shape cards links) },
}
