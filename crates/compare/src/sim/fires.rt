// A fire: the word leaves its input and is written to all its outputs.
use super::passages::Passage;
use super::simulators::Simulator;
use station::{Input, Station};
use std::alloc::AllocError;

impl Simulator {
    // Moves the word.
    pub(crate) fn fire(
        &mut self,
        card: u16,
        station: Station,
        input: Input,
        passage: Passage,
    ) -> Result<(), AllocError> {
        self.remove(card, input);
        self.write(card, station, passage)
    }

    // Takes the word from its input.
    fn remove(&mut self, card: u16, input: Input) {
        let daughters = self.family.daughters(card);
        let Some(here) = self.cards.get_mut(usize::from(card)) else {
            return;
        };
        match input {
            Input::Left => self.clear_up_link(daughters.left),
            Input::Right => self.clear_up_link(daughters.right),
            Input::Queue => {
                here.queue.pop_front();
            }
            Input::Parent => here.down_link = None,
            Input::Turn => here.turn_link = None,
        }
    }

    fn clear_up_link(&mut self, daughter: Option<u16>) {
        if let Some(daughter) = daughter {
            if let Some(there) = self.cards.get_mut(usize::from(daughter)) {
                there.up_link = None;
            }
        }
    }

    // Writes all outputs, and leaves the station as it stands then.
    fn write(&mut self, card: u16, station: Station, passage: Passage) -> Result<(), AllocError> {
        let daughters = self.family.daughters(card);
        if let Some(here) = self.cards.get_mut(usize::from(card)) {
            if passage.outputs.up {
                here.up_link = Some(passage.word);
            }
            if passage.outputs.turn {
                here.turn_link = Some(passage.word);
            }
            if let Some(word) = passage.inbox {
                here.inbox.push_back(word)?;
            }
            match station {
                Station::Up => here.up = passage.next,
                Station::Down => here.down = passage.next,
            }
        }
        if passage.outputs.left {
            self.write_down_link(daughters.left, passage.word);
        }
        if passage.outputs.right {
            self.write_down_link(daughters.right, passage.word);
        }
        Ok(())
    }

    fn write_down_link(&mut self, daughter: Option<u16>, word: u32) {
        if let Some(daughter) = daughter {
            if let Some(there) = self.cards.get_mut(usize::from(daughter)) {
                there.down_link = Some(word);
            }
        }
    }
}
