// The calls on a tree, by plain numbers and slices. What the router answers is told as one number.
ghost use Rattle.std.specs.Prelude.{◌≡◌};
ghost use Rattle.host.specs.Calls.{station_at, input_at, no_station, no_input, Sent, Fired, Taken, Owes, Planned};

use crate::told::{done, told};
use crate::tree::HostTree;
use routing::order;
use station::{Input, Station};

// There is no station, or no input, of that number.
const NO_STATION: u64 = 101 << 32;

const NO_INPUT: u64 = 102 << 32;

fn station_at(number: u8) -> Option<Station>
    ensures { result ≡ station_at number }
{
    match number {
        0 => Some(Station::Up),
        1 => Some(Station::Down),
        _ => None,
    }
}

fn input_at(number: u8) -> Option<Input>
    ensures { result ≡ input_at number }
{
    match number {
        0 => Some(Input::Left),
        1 => Some(Input::Right),
        2 => Some(Input::Queue),
        3 => Some(Input::Parent),
        4 => Some(Input::Turn),
        _ => None,
    }
}

impl HostTree {
    // Queues a whole packet at a card, or nothing.
    pub fn send(&mut self, card: u16, packet: &[u32]) -> u64
        ensures { Sent card packet.now self.old result self.new }
    {
        done(self.tree.send(card, packet))
    }

    // Moves one word through one station, to all its outputs together or not at all.
    pub fn fire(&mut self, card: u16, station: u8, input: u8) -> u64
        ensures { Fired card station input self.old result self.new }
    {
        let Some(station) = station_at(station) else {
            return NO_STATION;
        };
        let Some(input) = input_at(input) else {
            return NO_INPUT;
        };
        told(self.tree.fire(card, station, input).map(u32::from))
    }

    // Removes and returns the oldest word of an inbox.
    pub fn take(&mut self, card: u16) -> u64
        ensures { Taken card self.old result self.new }
    {
        told(self.tree.take(card))
    }

    // The hops owed. Changes nothing.
    pub fn owed(&self) -> u64
        ensures { Owes self.now result }
    {
        u64::from(self.tree.owed())
    }

    // The head of a packet from the sender to these cards. Changes nothing.
    pub fn order(&self, sender: u16, cards: &[u16]) -> u64
        ensures { Planned sender cards.now self.now result }
    {
        told(order(&self.wiring, sender, cards).map(u32::from))
    }
}
