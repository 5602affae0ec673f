// A wiring of either kind: the full tree, or the tree that a table lists.
ghost use Rattle.wiring.specs.Cabinets.{cabinet_shape};
ghost use Rattle.std.proofs.Common.{rules};

use crate::full::FullTree;
use crate::wire::Wiring;
use crate::wired::WiredTree;
use packet::Side;

// An enum, since a function may not hand out a `dyn Wiring` that it made.
#[derive(Clone, Copy)]
pub enum Cabinet {
    Full(FullTree),
    Wired(WiredTree),
}

impl Wiring for Cabinet {
    ghost shape = { cabinet_shape };

    ghost lawful = { Prim.search rules };

    fn cards(&self) -> u16 {
        match self {
            Cabinet::Full(tree) => tree.cards(),
            Cabinet::Wired(tree) => tree.cards(),
        }
    }

    #[inline(always)]
    fn daughter(&self, card: u16, side: Side) -> Option<u16> {
        match self {
            Cabinet::Full(tree) => tree.daughter(card, side),
            Cabinet::Wired(tree) => tree.daughter(card, side),
        }
    }

    fn parent(&self, card: u16) -> Option<(u16, Side)> {
        match self {
            Cabinet::Full(tree) => tree.parent(card),
            Cabinet::Wired(tree) => tree.parent(card),
        }
    }
}
