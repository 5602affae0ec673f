// A wiring and a policy at random, as both sides take them.
use crate::dice::Dice;
use crate::packets::{key, some_byte};
use crate::sim::{Licences, Rule, Scope};
use std::alloc::{AllocError, Global};

#[derive(Drop)]
pub struct World {
    // The levels, where it is a full tree, and the table, which the simulator reads in either case.
    pub levels: Option<u16>,
    pub table: Vec<u8>,
    // Are the rules pattern rules?
    pub patterns: bool,
    pub licences: Licences,
}

// The table of the full tree of so many cards.
fn full_table(heap: Global, cards: u32) -> Result<Vec<u8>, AllocError> {
    let mut table = Vec::new(heap);
    for daughter in 1..=cards.saturating_mul(2) {
        let entry = if daughter < cards {
            (daughter & 0xff) as u8
        } else {
            255
        };
        table.push(entry)?;
    }
    Ok(table)
}

// A lawful table: each card in turn gets a free place below a card of a lower number.
fn wired_table(heap: Global, dice: &mut Dice, cards: u32) -> Result<Vec<u8>, AllocError> {
    let mut table = Vec::new(heap);
    for _ in 0..cards.saturating_mul(2) {
        table.push(255)?;
    }
    // Long branches where the places are drawn among the last cards, bushes where they are drawn among all.
    let narrow = dice.one_in(2);
    for card in 1..cards {
        let places = card.saturating_mul(2);
        let low = if narrow { places.saturating_sub(4) } else { 0 };
        let from = dice.between(low, places.saturating_sub(1));
        put(table.as_mut_slice(), from, places, (card & 0xff) as u8);
    }
    Ok(table)
}

// Writes a card into the first free place from here on, round about among the first places.
fn put(table: &mut [u8], from: u32, places: u32, card: u8) {
    for step in 0..places {
        let place = from.saturating_add(step) % places.max(1);
        if let Some(entry) = table.get_mut(place as usize) {
            if *entry == 255 {
                *entry = card;
                return;
            }
        }
    }
}

fn class(dice: &mut Dice) -> Option<u8> {
    let draw = dice.below(5);
    if draw == 4 {
        None
    } else {
        Some((draw & 3) as u8)
    }
}

// From the lower of two numbers to the higher.
fn span(one: u8, other: u8) -> (u8, u8) {
    (one.min(other), one.max(other))
}

fn range(dice: &mut Dice) -> Scope {
    let (first, last) = span(some_byte(dice, 32), some_byte(dice, 32));
    Scope::Range {
        cards: (u16::from(first), u16::from(last)),
        keys: span(key(dice), key(dice)),
    }
}

fn pattern(dice: &mut Dice) -> Scope {
    let care = dice.byte() & dice.byte();
    Scope::Pattern {
        set: dice.word() & 0x7fff_ffff,
        value: dice.byte() & dice.byte() & care,
        care,
    }
}

fn licences(heap: Global, dice: &mut Dice, patterns: bool) -> Result<Licences, AllocError> {
    let mut rules = Vec::new(heap);
    let count = match dice.below(8) {
        0 => 0,
        1 => 64,
        _ => dice.between(1, 12),
    };
    for _ in 0..count {
        let scope = if patterns { pattern(dice) } else { range(dice) };
        rules.push(Rule {
            scope,
            class: class(dice),
        })?;
    }
    let mut layers = Vec::new(heap);
    for _ in 0..dice.below(3) {
        let mut keys = Vec::new(heap);
        for _ in 0..dice.between(1, 6) {
            keys.push(key(dice))?;
        }
        layers.push(keys)?;
    }
    Ok(Licences { rules, layers })
}

// Full trees of one to five levels, and trees by tables of 1 to 31 cards, in turn.
pub(crate) fn draw(heap: Global, dice: &mut Dice) -> Result<World, AllocError> {
    let full = dice.one_in(2);
    let levels = dice.between(1, 5);
    let cards = if full {
        1u32.rotate_left(levels).saturating_sub(1)
    } else {
        dice.between(1, 31)
    };
    let table = if full {
        full_table(heap, cards)?
    } else {
        wired_table(heap, dice, cards)?
    };
    let patterns = dice.one_in(2);
    Ok(World {
        levels: if full {
            Some((levels & 0xff) as u16)
        } else {
            None
        },
        table,
        patterns,
        licences: licences(heap, dice, patterns)?,
    })
}
