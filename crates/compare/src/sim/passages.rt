// May a word pass its station, and how: the conditions of a fire from the lowest number up.
use super::cards::{Held, Outputs, Stay};
use super::families::Daughters;
use super::simulators::{No, PLACES, Simulator};
use super::words;
use station::{Input, Station};

// A word's way through a station: the word that goes on, where it goes, the word for the inbox, and how the station stands then.
#[derive(Clone, Copy)]
pub struct Passage {
    pub word: u32,
    pub outputs: Outputs,
    pub inbox: Option<u32>,
    pub next: Option<Held>,
}

const NOWHERE: Outputs = Outputs {
    up: false,
    turn: false,
    left: false,
    right: false,
};

// Where a head goes from an up station.
fn from_up(head: u32) -> Outputs {
    Outputs {
        up: words::top(head),
        turn: !words::top(head),
        ..NOWHERE
    }
}

// Where a head goes from a down station, and whether it stops there.
fn from_down(head: u32, daughters: Daughters) -> (Outputs, Stay) {
    let flood = words::floods(head);
    if words::route(words::moved(head)) == 0 {
        let outputs = Outputs {
            left: flood && daughters.left.is_some(),
            right: flood && daughters.right.is_some(),
            ..NOWHERE
        };
        return (outputs, Stay::Waiting { flood });
    }
    let outputs = Outputs {
        left: !words::top(head),
        right: words::top(head),
        ..NOWHERE
    };
    (outputs, Stay::Onward)
}

impl Passage {
    // The outputs written, as a sum.
    pub(crate) fn sum(&self) -> u8 {
        let mut sum = 0;
        if self.outputs.up {
            sum |= 1;
        }
        if self.outputs.turn {
            sum |= 2;
        }
        if self.outputs.left {
            sum |= 4;
        }
        if self.outputs.right {
            sum |= 8;
        }
        if self.inbox.is_some() {
            sum |= 16;
        }
        sum
    }
}

impl Simulator {
    // May the word that waits at an input pass, and how? That a head waits at a free station, and a later word at its packet's, is for
    // `has_stray` to say.
    pub(crate) fn may_fire(
        &self,
        card: u16,
        station: Station,
        input: Input,
    ) -> Result<Passage, No> {
        let word = self.waiting(card, station, input)?;
        let passage = match self.held(card, station) {
            None => self.head(card, station, input, word),
            Some(held) if held.input == input => self.later(card, held, word),
            Some(_) => return Err(No::plain(15)),
        };
        if self.is_blocked(card, passage.outputs) {
            return Err(No::plain(16));
        }
        if passage.inbox.is_some() && self.card(card)?.inbox.len() >= PLACES {
            return Err(No::plain(17));
        }
        Ok(passage)
    }

    // A head takes the station.
    fn head(&self, card: u16, station: Station, input: Input, head: u32) -> Passage {
        let (outputs, stay) = match station {
            Station::Up => (from_up(head), Stay::Onward),
            Station::Down => from_down(head, self.family.daughters(card)),
        };
        Passage {
            word: words::moved(head),
            outputs,
            inbox: None,
            next: Some(Held {
                input,
                outputs,
                stay,
            }),
        }
    }

    // A later word goes where its head went; at the key word it is found whether the card keeps the packet.
    fn later(&self, card: u16, held: Held, word: u32) -> Passage {
        let (stay, inbox) = match held.stay {
            Stay::Onward => (Stay::Onward, None),
            Stay::Dropped => (Stay::Dropped, None),
            Stay::Kept => (Stay::Kept, Some(word)),
            Stay::Waiting { flood: false } => (Stay::Kept, Some(word)),
            Stay::Waiting { flood: true } => {
                match self.licences.class(card, words::key(word)) {
                    Some(class) => (Stay::Kept, Some(words::with_class(word, class))),
                    None => (Stay::Dropped, None),
                }
            }
        };
        let next = if words::is_tail(word) {
            None
        } else {
            Some(Held { stay, ..held })
        };
        Passage {
            word,
            outputs: held.outputs,
            inbox,
            next,
        }
    }

    // Is one of these links occupied?
    fn is_blocked(&self, card: u16, outputs: Outputs) -> bool {
        let daughters = self.family.daughters(card);
        let Some(here) = self.cards.get(usize::from(card)) else {
            return false;
        };
        (outputs.up && here.up_link.is_some())
            || (outputs.turn && here.turn_link.is_some())
            || (outputs.left && self.has_down_word(daughters.left))
            || (outputs.right && self.has_down_word(daughters.right))
    }

    fn has_down_word(&self, daughter: Option<u16>) -> bool {
        daughter
            .and_then(|card| self.cards.get(usize::from(card)))
            .is_some_and(|card| card.down_link.is_some())
    }
}
