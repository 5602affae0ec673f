// A wiring that was asked once for what is asked of it often.
ghost use Rattle.std.specs.Prelude.{◌≡◌, ℕ, ◌<◌, get_or};
ghost use Rattle.routing.specs.Subtrees.{of_daughter, subtree_size, reach, path_hops};
ghost use Rattle.routing.specs.Places.{card_in, nowhere, place_of};

use crate::walks::Walk;
use packet::{Mode, Side};
use std::marker::Model;
use wiring::{CardId, Wiring};

// What is kept of a card: what it is linked to, and how many cards its subtree has.
#[derive(Clone, Copy)]
struct Place {
    left: Option<CardId>,
    right: Option<CardId>,
    parent: Option<(u16, Side)>,
    size: u16,
}

const NOWHERE: Place = Place {
    left: None,
    right: None,
    parent: None,
    size: 0,
};

// Any wiring, with its number of cards and what is kept of each.
#[derive(Drop)]
pub struct Measured<W: Wiring> {
    wiring: W,
    cards: u16,
    places: [Place; 31],
}

// Clauses see the wiring.
impl<W: Wiring> Model for Measured<W> {
    ghost Value = { W };

    ghost view = { λ m. m.wiring };

    ghost invariant = { λ m. (m.cards ≡ (W.shape m.wiring).cards) × ((c : ℕ) → get_or m.places c nowhere ≡ place_of (W.shape m.wiring) c) };
}

// The daughter of a card on this side.
#[tactic(auto, using(crate::proofs::Sizes::daughter_inside))]
fn daughter_of<W: Wiring>(wiring: &W, card: u16, side: Side) -> Option<CardId>
    ensures { result ≡ (W.shape wiring.now).daughter side card }
{
    // No closure, in which the bound would not be known.
    let number = wiring.daughter(card, side)?;
    Some(CardId::new(number))
}

// The size of the subtree of a daughter, where it is kept already; 0 where there is no daughter.
fn size_below<W: Wiring>(wiring: &W, card: u16, side: Side, places: &[Place; 31]) -> u16
    ensures { result ≡ of_daughter (λ d. (get_or places.now d nowhere).size) ((W.shape wiring.now).daughter side card) }
{
    match daughter_of(wiring, card, side) {
        Some(daughter) => places[daughter.index()].size,
        None => 0,
    }
}

// What is kept of a card, once it is kept of all cards with higher numbers.
fn place_of<W: Wiring>(wiring: &W, card: u16, places: &[Place; 31]) -> Place
    requires known { card < (W.shape wiring.now).cards }
    requires above { (c : ℕ) → card < c → get_or places.now c nowhere ≡ place_of (W.shape wiring.now) c }
    ensures { result ≡ place_of (W.shape wiring.now) card }
{
    let left = size_below(wiring, card, Side::Left, places);
    let right = size_below(wiring, card, Side::Right, places);
    Place {
        left: daughter_of(wiring, card, Side::Left),
        right: daughter_of(wiring, card, Side::Right),
        parent: wiring.parent(card),
        size: 1 + left + right,
    }
}

// What is kept of each card. A daughter's number is above her parent's, so it is kept of her first.
fn places<W: Wiring>(wiring: &W) -> [Place; 31]
    ensures { (c : ℕ) → get_or result c nowhere ≡ place_of (W.shape wiring.now) c }
{
    let mut places = [NOWHERE; 31];
    let mut card = wiring.cards();
    while card > 0 {
        card -= 1;
        places[usize::from(card)] = place_of(wiring, card, &places);
    }
    places
}

impl<W: Wiring> Measured<W> {
    // Asks the wiring once for each card. It is inlined, since the table would be copied once more.
    #[inline(always)]
    pub fn new(wiring: W) -> Measured<W>
        ensures { result ≡ wiring }
    {
        let cards = wiring.cards();
        let places = places(&wiring);
        Measured {
            wiring,
            cards,
            places,
        }
    }

    // The card of this number, if there is one.
    #[tactic(auto, using(crate::proofs::Sizes::card_inside))]
    #[inline(always)]
    pub fn card(&self, number: u16) -> Option<CardId>
        ensures { result ≡ card_in (W.shape self.now) number }
    {
        if number < self.cards {
            Some(CardId::new(number))
        } else {
            None
        }
    }

    // What is kept of a card.
    #[inline(always)]
    fn place(&self, card: CardId) -> &Place
        ensures { result.now ≡ place_of (W.shape self.now) card }
    {
        &self.places[card.index()]
    }

    // The daughter of a card on this side.
    #[inline(always)]
    pub fn daughter_at(&self, card: CardId, side: Side) -> Option<CardId>
        ensures { result ≡ (W.shape self.now).daughter side card }
    {
        let place = self.place(card);
        match side {
            Side::Left => place.left,
            Side::Right => place.right,
        }
    }

    // The parent of a card, and the side of the parent on which the card is.
    #[inline(always)]
    pub fn parent_at(&self, card: CardId) -> Option<(u16, Side)>
        ensures { result ≡ (W.shape self.now).parent card }
    {
        self.place(card).parent
    }

    // How many cards the subtree of this card has, itself counted.
    #[tactic(auto, using(crate::proofs::Sizes::no_size))]
    pub fn subtree_size(&self, card: u16) -> u16
        ensures { result ≡ subtree_size (W.shape self.now) card }
    {
        match self.card(card) {
            Some(card) => self.place(card).size,
            None => 0,
        }
    }

    // How many cards a packet of this mode and terminus reaches.
    pub fn cards_reached(&self, mode: Mode, terminus: u16) -> u16
        ensures { result ≡ reach (W.shape self.now) mode terminus }
    {
        match mode {
            Mode::Target => 1,
            Mode::Flood => self.subtree_size(terminus),
        }
    }

    // The path hops of a packet of so many words on this walk.
    pub fn path_hops(&self, mode: Mode, walk: &Walk, words: u16) -> u64
        ensures { result ≡ path_hops (W.shape self.now) mode walk.now words }
    {
        u64::from(words) * u64::from(walk.hops(self.cards_reached(mode, walk.terminus)))
    }
}

impl<W: Wiring> Wiring for Measured<W> {
    ghost shape = { W.shape };

    ghost lawful = { W.lawful };

    #[inline(always)]
    fn cards(&self) -> u16 {
        self.cards
    }

    #[tactic(auto, using(crate::proofs::Sizes::no_daughter))]
    #[inline(always)]
    fn daughter(&self, card: u16, side: Side) -> Option<u16> {
        let daughter = self.daughter_at(self.card(card)?, side)?;
        Some(daughter.number())
    }

    #[tactic(auto, using(crate::proofs::Sizes::no_parent))]
    #[inline(always)]
    fn parent(&self, card: u16) -> Option<(u16, Side)> {
        self.parent_at(self.card(card)?)
    }
}
