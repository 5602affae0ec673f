// Packets at random, good and bad.
use crate::dice::Dice;
use crate::sim::Family;
use std::alloc::{AllocError, Global};

// The kinds of a head and a tail, the mode of a flood, and the bits below the kind.
const HEAD: u32 = 0x8000_0000;

const TAIL: u32 = 0x4000_0000;

const FLOOD: u32 = 0x2000_0000;

const FREE: u32 = 0x3fff_ffff;

// A route that is written bit by bit, from the highest.
#[derive(Drop)]
struct Writer {
    bits: u32,
    count: u32,
}

impl Writer {
    fn write(&mut self, bit: u32) {
        self.bits = ((self.bits & 0xff) << 1) | (bit & 1);
        self.count = self.count.saturating_add(1);
    }

    // The nine bits, zeros below what was written.
    fn route(&self) -> u32 {
        (self.bits << 9u32.saturating_sub(self.count)) & 0x1ff
    }
}

// A route that a card's packet can go.
fn good_route(dice: &mut Dice, family: &Family, card: u16) -> u32 {
    let mut route = Writer { bits: 0, count: 0 };
    let mut at = card;
    // Seven links are the most.
    for _ in 0..dice.below(8) {
        if let Some(parent) = family.parent(at) {
            at = parent;
            route.write(1);
        }
    }
    route.write(0);
    for _ in 0..dice.below(8) {
        let right = dice.one_in(2);
        let daughters = family.daughters(at);
        let daughter = if right {
            daughters.right
        } else {
            daughters.left
        };
        if let Some(daughter) = daughter {
            if route.count < 8 {
                at = daughter;
                route.write(u32::from(right));
            }
        }
    }
    route.write(1);
    route.route()
}

// Mostly short packets, some long ones, and a few of the most words.
fn length(dice: &mut Dice) -> u32 {
    match dice.below(16) {
        0 => 64,
        1 | 2 => dice.between(2, 64),
        3..=6 => dice.between(4, 20),
        7..=10 => 2,
        _ => dice.between(2, 6),
    }
}

// A word behind the key word: often one of few, so that equal arrivals come.
fn body(dice: &mut Dice) -> u32 {
    if dice.one_in(2) {
        dice.below(2)
    } else {
        dice.word() & FREE
    }
}

// Most keys are of few, so that rules and withdrawals meet them; one in four is any byte.
pub(crate) fn key(dice: &mut Dice) -> u8 {
    some_byte(dice, 24)
}

// A number below a limit, and one time in four any byte.
pub(crate) fn some_byte(dice: &mut Dice, limit: u32) -> u8 {
    if dice.one_in(4) {
        dice.byte()
    } else {
        (dice.below(limit) & 0xff) as u8
    }
}

// A packet of this many words by a way that there is. It may be queued, if its length is right and the queue has room.
fn packet_of(
    heap: Global,
    dice: &mut Dice,
    family: &Family,
    card: u16,
    length: u32,
) -> Result<Vec<u32>, AllocError> {
    let mode = if dice.one_in(2) { FLOOD } else { 0 };
    let route = good_route(dice, family, card);
    let mut packet = Vec::new(heap);
    for place in 0..length {
        packet.push(match place {
            0 => HEAD | mode | route,
            1 => u32::from(key(dice)),
            _ => body(dice),
        })?;
    }
    if let Some(last) = packet.last_mut() {
        *last |= TAIL;
    }
    Ok(packet)
}

// A packet without a fault.
pub(crate) fn good_packet(
    heap: Global,
    dice: &mut Dice,
    family: &Family,
    card: u16,
) -> Result<Vec<u32>, AllocError> {
    let length = length(dice);
    packet_of(heap, dice, family, card, length)
}

// A packet with a fault or two, or with what may be a fault.
pub(crate) fn bad_packet(
    heap: Global,
    dice: &mut Dice,
    family: &Family,
    card: u16,
) -> Result<Vec<u32>, AllocError> {
    let length = match dice.below(8) {
        0 => dice.below(2),
        1 if dice.one_in(4) => dice.between(71, 400),
        1 => dice.between(65, 70),
        _ => length(dice),
    };
    let mut packet = packet_of(heap, dice, family, card, length)?;
    for _ in 0..dice.between(1, 2) {
        spoil(dice, packet.as_mut_slice());
    }
    Ok(packet)
}

// Makes one fault: a kind, a reserved bit, or the route.
fn spoil(dice: &mut Dice, packet: &mut [u32]) {
    let words = u32::try_from(packet.len()).unwrap_or(0);
    match dice.below(8) {
        0 | 1 => {
            let place = dice.below(words);
            flip(packet, place, dice.between(1, 3) << 30);
        }
        2 => flip(packet, 0, one_bit(dice, 9, 28)),
        3 => flip(packet, 1, one_bit(dice, 8, 29)),
        4 => set_route(packet, 0x3_fe00 >> dice.below(10)),
        _ => set_route(packet, dice.below(512)),
    }
}

// Flips bits of one word.
fn flip(packet: &mut [u32], place: u32, bits: u32) {
    if let Some(word) = packet.get_mut(place as usize) {
        *word ^= bits;
    }
}

fn one_bit(dice: &mut Dice, low: u32, high: u32) -> u32 {
    1u32.rotate_left(dice.between(low, high))
}

fn set_route(packet: &mut [u32], route: u32) {
    if let Some(head) = packet.first_mut() {
        *head = (*head & !0x1ff) | (route & 0x1ff);
    }
}
