// The simulated tree, and the questions that its calls ask of it.
use super::cards::{Card, Held};
use super::families::Family;
use super::licences::Licences;
use station::{Input, Station};
use std::alloc::{AllocError, Global};

// The queue and the inbox of a card have so many places.
pub const PLACES: usize = 64;

// A refusal: its number, and its place where it has one.
#[derive(Clone, Copy, PartialEq, Eq)]
pub struct No {
    pub number: u8,
    pub place: Option<usize>,
}

impl No {
    pub(crate) fn plain(number: u8) -> No {
        No {
            number,
            place: None,
        }
    }

    pub(crate) fn at(number: u8, place: usize) -> No {
        No {
            number,
            place: Some(place),
        }
    }
}

#[derive(Drop)]
pub struct Simulator {
    pub family: Family,
    pub licences: Licences,
    pub cards: Vec<Card>,
}

impl Simulator {
    // An empty tree.
    pub(crate) fn new(
        heap: Global,
        family: Family,
        licences: Licences,
    ) -> Result<Simulator, AllocError> {
        let mut cards = Vec::new(heap);
        for _ in 0..family.cards() {
            cards.push(Card::new(heap))?;
        }
        Ok(Simulator {
            family,
            licences,
            cards,
        })
    }

    pub(crate) fn card(&self, card: u16) -> Result<&Card, No> {
        self.cards.get(usize::from(card)).ok_or(No::plain(5))
    }

    // The word that waits at an input: refused is an input that is not there, and then an empty one.
    pub(crate) fn waiting(&self, card: u16, station: Station, input: Input) -> Result<u32, No> {
        let here = self.card(card)?;
        let daughters = self.family.daughters(card);
        let word = match (station, input) {
            (Station::Up, Input::Left) => self.up_link(daughters.left.ok_or(No::plain(13))?),
            (Station::Up, Input::Right) => self.up_link(daughters.right.ok_or(No::plain(13))?),
            (Station::Up, Input::Queue) => here.queue.front().copied(),
            (Station::Down, Input::Parent) => {
                if self.family.parent(card).is_none() {
                    return Err(No::plain(13));
                }
                here.down_link
            }
            (Station::Down, Input::Turn) => here.turn_link,
            _ => return Err(No::plain(13)),
        };
        word.ok_or(No::plain(14))
    }

    fn up_link(&self, card: u16) -> Option<u32> {
        self.cards
            .get(usize::from(card))
            .and_then(|card| card.up_link)
    }

    // How a station of a card is held.
    pub(crate) fn held(&self, card: u16, station: Station) -> Option<Held> {
        let card = self.cards.get(usize::from(card))?;
        match station {
            Station::Up => card.up,
            Station::Down => card.down,
        }
    }
}
