// A send: the packet is checked from the lowest number up, and queued whole.
use super::journeys::Journey;
use super::simulators::{No, PLACES, Simulator};
use super::words;
use std::alloc::AllocError;

// The first word of the wrong kind.
fn check_kinds(packet: &[u32]) -> Result<(), No> {
    let last = packet.len().saturating_sub(1);
    for (place, word) in packet.iter().enumerate() {
        let right = if place == 0 {
            words::is_head(*word)
        } else if place == last {
            words::is_tail(*word)
        } else {
            words::is_body(*word)
        };
        if !right {
            return Err(No::at(7, place));
        }
    }
    Ok(())
}

// Bits 28 to 9 of the head, then bits 29 to 8 of the key word.
fn check_reserved(head: u32, key_word: u32) -> Result<(), No> {
    if head & 0x1fff_fe00 != 0 {
        return Err(No::at(8, 0));
    }
    if key_word & 0x3fff_ff00 != 0 {
        return Err(No::at(8, 1));
    }
    Ok(())
}

impl Simulator {
    // May the card send this packet, and where does it go?
    pub(crate) fn may_send(&self, card: u16, packet: &[u32]) -> Result<Journey, No> {
        let here = self.card(card)?;
        let [head, key_word, ..] = packet else {
            return Err(No::plain(6));
        };
        if packet.len() > 64 {
            return Err(No::plain(6));
        }
        check_kinds(packet)?;
        check_reserved(*head, *key_word)?;
        let journey = self.family.journey(card, words::route(*head))?;
        if here.queue.len().saturating_add(packet.len()) > PLACES {
            return Err(No::plain(12));
        }
        Ok(journey)
    }

    // Puts the packet's words at the end of the queue.
    pub(crate) fn send(&mut self, card: u16, packet: &[u32]) -> Result<(), AllocError> {
        if let Some(here) = self.cards.get_mut(usize::from(card)) {
            for word in packet {
                here.queue.push_back(*word)?;
            }
        }
        Ok(())
    }
}
