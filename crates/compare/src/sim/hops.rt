// The hops owed, walked anew each time: for each word in a queue or a link the stations that it still has to pass, copies not yet made too.
use super::cards::Card;
use super::simulators::Simulator;
use super::words;
use station::{Input, Station};

impl Simulator {
    pub(crate) fn owed(&self) -> u64 {
        let mut owed = 0u64;
        for (number, card) in self.cards.iter().enumerate() {
            let number = u16::try_from(number).unwrap_or(u16::MAX);
            owed = owed
                .saturating_add(self.owed_by_queue(number, card))
                .saturating_add(self.owed_by_links(number, card));
        }
        owed
    }

    // Words at the front whose head has left follow it; behind them each head has its own way.
    fn owed_by_queue(&self, number: u16, card: &Card) -> u64 {
        let mut owed = 0u64;
        let mut each = 0u64;
        for (place, word) in card.queue.iter().enumerate() {
            if words::is_head(*word) {
                each = self.hops_by_route(number, Station::Up, *word);
            } else if place == 0 {
                each = self.hops_up(number, Input::Queue);
            }
            owed = owed.saturating_add(each);
        }
        owed
    }

    fn owed_by_links(&self, number: u16, card: &Card) -> u64 {
        let mut owed = 0u64;
        if card.up_link.is_some() {
            if let Some(parent) = self.family.parent(number) {
                owed = owed.saturating_add(self.hops_up(parent, self.side(parent, number)));
            }
        }
        if card.turn_link.is_some() {
            owed = owed.saturating_add(self.hops_down(number, Input::Turn));
        }
        if card.down_link.is_some() {
            owed = owed.saturating_add(self.hops_down(number, Input::Parent));
        }
        owed
    }

    // The input of the parent at which this daughter's words wait.
    fn side(&self, parent: u16, daughter: u16) -> Input {
        if self.family.daughters(parent).left == Some(daughter) {
            Input::Left
        } else {
            Input::Right
        }
    }

    // The stations that a head before this station still has to pass, bit by bit of its route.
    fn hops_by_route(&self, card: u16, station: Station, head: u32) -> u64 {
        let mut hops = 0u64;
        let mut card = card;
        let mut rises = matches!(station, Station::Up);
        let mut head = head;
        for _ in 0..10 {
            hops = hops.saturating_add(1);
            let top = words::top(head);
            head = words::moved(head);
            if rises && top {
                card = self.family.parent(card).unwrap_or(card);
            } else if rises {
                rises = false;
            } else if words::route(head) == 0 {
                if words::floods(head) {
                    hops = hops
                        .saturating_add(self.family.size(card))
                        .saturating_sub(1);
                }
                return hops;
            } else {
                let daughters = self.family.daughters(card);
                let daughter = if top { daughters.right } else { daughters.left };
                card = daughter.unwrap_or(card);
            }
        }
        hops
    }

    // The stations that a word at this input of an up station still has to pass: held stations show the way to its head.
    fn hops_up(&self, card: u16, input: Input) -> u64 {
        let mut hops = 0u64;
        let mut card = card;
        let mut input = input;
        for _ in 0..32 {
            match self.held(card, Station::Up) {
                Some(held) if held.input == input => {
                    hops = hops.saturating_add(1);
                    if held.outputs.turn {
                        return hops.saturating_add(self.hops_down(card, Input::Turn));
                    }
                    let parent = self.family.parent(card).unwrap_or(card);
                    input = self.side(parent, card);
                    card = parent;
                }
                _ => return hops.saturating_add(self.hops_of_head(card, Station::Up, input)),
            }
        }
        hops
    }

    // The same before a down station. Daughters have higher numbers, so one pass over the cards meets all copies.
    fn hops_down(&self, first: u16, input: Input) -> u64 {
        let mut hops = 0u64;
        let mut reached = [false; 31];
        mark(&mut reached, Some(first));
        for card in first..self.family.cards() {
            if !reached.get(usize::from(card)).copied().unwrap_or(false) {
                continue;
            }
            let from = if card == first { input } else { Input::Parent };
            match self.held(card, Station::Down) {
                Some(held) if held.input == from => {
                    hops = hops.saturating_add(1);
                    let daughters = self.family.daughters(card);
                    if held.outputs.left {
                        mark(&mut reached, daughters.left);
                    }
                    if held.outputs.right {
                        mark(&mut reached, daughters.right);
                    }
                }
                _ => hops = hops.saturating_add(self.hops_of_head(card, Station::Down, from)),
            }
        }
        hops
    }

    // The head that waits at an input.
    fn hops_of_head(&self, card: u16, station: Station, input: Input) -> u64 {
        match self.waiting(card, station, input) {
            Ok(head) => self.hops_by_route(card, station, head),
            Err(_) => 0,
        }
    }
}

fn mark(reached: &mut [bool], card: Option<u16>) {
    if let Some(card) = card {
        if let Some(place) = reached.get_mut(usize::from(card)) {
            *place = true;
        }
    }
}
