// The cards of a tree. A method that writes borrows its card itself: one that lends out an element of an array gets no proof of its clause.
ghost use Rattle.std.specs.Prelude.{◌≡◌, ℕ, ◌+◌, ◌<◌, ◌≤◌, ◌++◌, false, length, Some, Ok};
ghost use Rattle.station.specs.Holds.{merge};
ghost use Rattle.network.specs.Cards.{empty, card_at, on_card, with_queue, with_inbox, oldest, younger};
ghost use Rattle.network.specs.Fires.{waits, hold_at, down_taken, link_taken, inbox_taken, clear, kept, consumed, to_down_link, written, passed};

use crate::card::Card;
use refusal::FireFault;
use station::{Channel, Here, Hold, Input, Plan, Station};
use std::array;
use std::marker::Model;
use wiring::CardId;

// Fixed memory, with a place for as many cards as a wiring may have.
#[derive(Drop)]
pub struct Table {
    cards: [Card; 31],
}

// Clauses see the state of the network's definitions.
impl Model for Table {
    ghost use Rattle.network.specs.Cards.{State};

    ghost Value = { State };

    ghost view = { λ t. t.cards };
}

impl Table {
    pub fn empty() -> Table
        ensures { result ≡ empty }
    {
        Table {
            cards: array::from_fn(|_| Card::blank()),
        }
    }

    #[inline(always)]
    fn card(&self, c: CardId) -> &Card
        ensures { result.now ≡ card_at self.now c }
    {
        &self.cards[c.index()]
    }

    // The word that waits in a channel, or that nothing does.
    #[inline(always)]
    pub fn word_at(&self, from: &Channel) -> Result<u32, FireFault>
        ensures { result ≡ waits self.now from.now }
    {
        let card = self.card(from.card());
        let word = match *from {
            Channel::Queued(_) => card.queue.oldest(),
            Channel::UpLink(_) => card.uplink,
            Channel::TurnLink(_) => card.turnlink,
            Channel::DownLink(_) => card.downlink,
        };
        word.ok_or(FireFault::NothingWaits)
    }

    // The oldest word of an inbox.
    pub fn first_in(&self, c: CardId) -> Option<u32>
        ensures { result ≡ oldest (card_at self.now c).inbox }
    {
        self.card(c).inbox.oldest()
    }

    // How many words wait in a queue.
    pub fn queued(&self, c: CardId) -> usize
        ensures words { result ≡ length (card_at self.now c).queue }
        ensures few { result ≤ 64 }
    {
        self.card(c).queue.len()
    }

    // How a station stands.
    #[inline(always)]
    pub fn hold(&self, c: CardId, station: Station) -> Hold<Input>
        ensures { result ≡ hold_at self.now c station }
    {
        match station {
            Station::Up => self.card(c).up,
            Station::Down => self.card(c).down,
        }
    }

    // May the word that waits at this input pass?
    #[inline(always)]
    pub fn admits(
        &self,
        c: CardId,
        station: Station,
        input: Input,
        word: u32,
    ) -> Result<(), FireFault>
        ensures { result ≡ merge (hold_at self.now c station) input word }
    {
        self.hold(c, station).admits(input, word)
    }

    #[inline(always)]
    fn down_taken(&self, to: Option<CardId>) -> bool
        ensures { result ≡ down_taken self.now to }
    {
        to.is_some_and(|d| self.card(d).downlink.is_some())
    }

    #[inline(always)]
    fn link_taken(&self, c: CardId, plan: &Plan<CardId>) -> bool
        ensures { result ≡ link_taken self.now c plan.now }
    {
        let card = self.card(c);
        plan.up && card.uplink.is_some()
            || plan.turn && card.turnlink.is_some()
            || self.down_taken(plan.left)
            || self.down_taken(plan.right)
    }

    #[inline(always)]
    fn inbox_taken(&self, c: CardId, here: Here) -> bool
        ensures { result ≡ inbox_taken self.now c here }
    {
        matches!(here, Here::Kept(_)) && self.card(c).inbox.len() >= 64
    }

    // Is there room for all outputs?
    #[inline(always)]
    pub fn check(&self, c: CardId, plan: &Plan<CardId>) -> Result<(), FireFault>
        ensures answer { result ≡ clear self.now c plan.now }
        ensures room { result ≡ Ok tt → inbox_taken self.now c plan.now.here ≡ false }
    {
        if self.link_taken(c, plan) {
            return Err(FireFault::LinkOccupied);
        }
        if self.inbox_taken(c, plan.here) {
            return Err(FireFault::InboxFull);
        }
        Ok(())
    }

    // The word that is kept enters the inbox.
    #[inline(always)]
    pub fn keep(&mut self, c: CardId, here: Here)
        requires { inbox_taken self.old c here ≡ false }
        ensures { self.new ≡ kept c here self.old }
    {
        if let Here::Kept(word) = here {
            let card = &mut self.cards[c.index()];
            card.inbox.push(word);
        }
    }

    // The oldest word leaves a channel.
    #[inline(always)]
    pub fn consume(&mut self, from: Channel)
        ensures { self.new ≡ consumed from self.old }
    {
        let card = &mut self.cards[from.card().index()];
        match from {
            Channel::Queued(_) => card.queue.drop_oldest(),
            Channel::UpLink(_) => card.uplink = None,
            Channel::TurnLink(_) => card.turnlink = None,
            Channel::DownLink(_) => card.downlink = None,
        }
    }

    // The word is written to every link of the plan.
    #[inline(always)]
    pub fn write(&mut self, c: CardId, plan: &Plan<CardId>)
        ensures { self.new ≡ written c plan.now self.old }
    {
        let card = &mut self.cards[c.index()];
        if plan.up {
            card.uplink = Some(plan.word);
        }
        if plan.turn {
            card.turnlink = Some(plan.word);
        }
        self.write_down(plan.left, plan.word);
        self.write_down(plan.right, plan.word);
    }

    #[inline(always)]
    fn write_down(&mut self, to: Option<CardId>, word: u32)
        ensures { self.new ≡ to_down_link to word self.old }
    {
        if let Some(d) = to {
            let card = &mut self.cards[d.index()];
            card.downlink = Some(word);
        }
    }

    // The station moves in place.
    #[inline(always)]
    pub fn pass(&mut self, c: CardId, station: Station, input: Input, word: u32, here: Here)
        ensures { self.new ≡ passed c station input word here self.old }
    {
        let card = &mut self.cards[c.index()];
        match station {
            Station::Up => card.up.pass(input, word, here),
            Station::Down => card.down.pass(input, word, here),
        }
    }

    // The oldest word leaves the inbox.
    pub fn take(&mut self, c: CardId) -> Option<u32>
        ensures word { result ≡ oldest (card_at self.old c).inbox }
        ensures rest { self.new ≡ on_card self.old c (with_inbox (younger (card_at self.old c).inbox)) }
    {
        let card = &mut self.cards[c.index()];
        card.inbox.pop()
    }

    // All these words enter the queue.
    pub fn queue_all(&mut self, c: CardId, words: &[u32])
        requires { length (card_at self.old c).queue + length words.now ≤ 64 }
        ensures { self.new ≡ on_card self.old c (with_queue ((card_at self.old c).queue ++ words.now)) }
    {
        let card = &mut self.cards[c.index()];
        card.queue.push_all(words);
    }
}
