// The full tree as a wiring: 2i + 1 and 2i + 2 are the daughters of card i.
ghost use Rattle.std.specs.Prelude.{◌≡◌};
ghost use Rattle.wiring.specs.Shapes.{full_shape};
ghost use Rattle.wiring.specs.Fulls.{full_tree, full_told};
ghost use Rattle.std.proofs.Common.{rules};

use super::FullTree;
use crate::wire::Wiring;
use packet::Side;
use refusal::WiringFault;

impl FullTree {
    // The full tree of 1 to 5 levels.
    pub fn new(levels: u16) -> Result<FullTree, WiringFault>
        ensures { full_told result ≡ full_tree levels }
    {
        match levels {
            1..=5 => Ok(FullTree {
                cards: (1 << levels) - 1,
            }),
            _ => Err(WiringFault::Size),
        }
    }
}

impl Wiring for FullTree {
    ghost shape = { λ t. full_shape t.cards };

    ghost lawful = { Prim.search rules };

    fn cards(&self) -> u16 {
        self.cards
    }

    // The card is tested first: twice a number that is no card may pass 16 bits.
    fn daughter(&self, card: u16, side: Side) -> Option<u16> {
        if card >= self.cards {
            return None;
        }
        let daughter = match side {
            Side::Left => 2 * card + 1,
            Side::Right => 2 * card + 2,
        };
        (daughter < self.cards).then_some(daughter)
    }

    fn parent(&self, card: u16) -> Option<(u16, Side)> {
        if card == 0 || card >= self.cards {
            return None;
        }
        Some(((card - 1) / 2, Side::from(card % 2 == 0)))
    }
}
