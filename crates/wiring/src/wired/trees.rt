// The wired tree as a wiring: a card's links tell its daughters and its parent.
ghost use Rattle.wiring.specs.Tables.{Wired};
ghost use Rattle.wiring.specs.Wireds.{wired_shape, wired_told, Judged};

use super::tables::link_all;
use super::{UNLINKED, WiredTree};
use crate::wire::Wiring;
use packet::Side;
use refusal::WiringFault;

impl WiredTree {
    // The tree that a table lists: two entries for each card in turn, its left and its right daughter.
    pub fn new(table: &[u8]) -> Result<WiredTree, WiringFault>
        ensures told { Wired table.now (wired_told result) }
        ensures laws { Judged table.now (wired_told result) }
    {
        if table.is_empty() || table.len() > 62 || table.len() % 2 != 0 {
            return Err(WiringFault::Size);
        }
        let cards = table.len() / 2;
        let mut links = [UNLINKED; 31];
        link_all(&mut links[..cards], table)?;
        Ok(WiredTree {
            cards: cards as u16,
            links,
        })
    }
}

impl Wiring for WiredTree {
    ghost shape = { wired_shape };

    ghost lawful = { λ t. t.lawful };

    fn cards(&self) -> u16 {
        self.cards
    }

    fn daughter(&self, card: u16, side: Side) -> Option<u16> {
        if card >= self.cards {
            return None;
        }
        let links = &self.links[usize::from(card)];
        match side {
            Side::Left => links.left,
            Side::Right => links.right,
        }
    }

    fn parent(&self, card: u16) -> Option<(u16, Side)> {
        if card >= self.cards {
            return None;
        }
        self.links[usize::from(card)].parent
    }
}
