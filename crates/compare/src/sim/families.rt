// The wiring: a list of each card's daughters, read from a table of bytes, and what follows from it.
use std::alloc::{AllocError, Global};

#[derive(Clone, Copy)]
pub struct Daughters {
    pub left: Option<u16>,
    pub right: Option<u16>,
}

// Each card's daughters, its parent, and the number of cards in its subtree.
#[derive(Drop)]
pub struct Family {
    daughters: Vec<Daughters>,
    parents: Vec<Option<u16>>,
    sizes: Vec<u64>,
}

// An entry of a table: 255 is none.
fn entry(byte: u8) -> Option<u16> {
    if byte == 255 {
        None
    } else {
        Some(u16::from(byte))
    }
}

// The card among whose daughters this one is.
fn find_parent(daughters: &[Daughters], card: u16) -> Option<u16> {
    let mut number = 0u16;
    for both in daughters {
        if both.left == Some(card) || both.right == Some(card) {
            return Some(number);
        }
        number = number.saturating_add(1);
    }
    None
}

impl Family {
    // The tree that a table lists: two bytes for each card in turn.
    pub(crate) fn of(heap: Global, table: &[u8]) -> Result<Family, AllocError> {
        let mut daughters = Vec::new(heap);
        for pair in table.chunks(2) {
            if let [left, right] = pair {
                daughters.push(Daughters {
                    left: entry(*left),
                    right: entry(*right),
                })?;
            }
        }
        let mut family = Family {
            daughters,
            parents: Vec::new(heap),
            sizes: Vec::new(heap),
        };
        for card in 0..family.cards() {
            family
                .parents
                .push(find_parent(family.daughters.as_slice(), card))?;
        }
        for card in 0..family.cards() {
            let size = family.subtree_size(card);
            family.sizes.push(size)?;
        }
        Ok(family)
    }

    pub(crate) fn cards(&self) -> u16 {
        u16::try_from(self.daughters.len()).unwrap_or(u16::MAX)
    }

    pub(crate) fn daughters(&self, card: u16) -> Daughters {
        self.daughters
            .get(usize::from(card))
            .copied()
            .unwrap_or(Daughters {
                left: None,
                right: None,
            })
    }

    pub(crate) fn parent(&self, card: u16) -> Option<u16> {
        self.parents.get(usize::from(card)).copied().flatten()
    }

    // The cards of the subtree, the card itself among them.
    pub(crate) fn size(&self, card: u16) -> u64 {
        self.sizes.get(usize::from(card)).copied().unwrap_or(0)
    }

    // Does one get from the lower card to the upper by links up, or are they the same?
    pub(crate) fn stands_over(&self, upper: u16, lower: u16) -> bool {
        let mut at = lower;
        for _ in 0..32 {
            if at == upper {
                return true;
            }
            match self.parent(at) {
                Some(parent) => at = parent,
                None => return false,
            }
        }
        false
    }

    fn subtree_size(&self, upper: u16) -> u64 {
        let mut size = 0u64;
        for lower in 0..self.cards() {
            if self.stands_over(upper, lower) {
                size = size.saturating_add(1);
            }
        }
        size
    }
}
