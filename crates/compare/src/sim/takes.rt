// A take: the oldest word of an inbox.
use super::simulators::{No, Simulator};

impl Simulator {
    pub(crate) fn take(&mut self, card: u16) -> Result<u32, No> {
        let card = self.cards.get_mut(usize::from(card)).ok_or(No::plain(5))?;
        card.inbox.pop_front().ok_or(No::plain(18))
    }

    // The words in a card's inbox.
    pub(crate) fn inbox_len(&self, card: u16) -> usize {
        self.cards
            .get(usize::from(card))
            .map_or(0, |card| card.inbox.len())
    }
}
