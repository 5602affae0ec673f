// Which call comes next: by a mood that changes, so that trees fill, flow and empty.
use crate::calls::Call;
use crate::dice::Dice;
use crate::packets::{bad_packet, good_packet};
use crate::sim::{INPUTS, Simulator};
use station::{Input, Station};
use std::alloc::{AllocError, Global};

// How likely the calls are, in hundredths, fires have the rest; one call in so many is bad.
#[derive(Clone, Copy)]
pub struct Mood {
    sends: u32,
    takes: u32,
    bad: u32,
}

impl Mood {
    pub(crate) fn draw(dice: &mut Dice) -> Mood {
        let (sends, takes) = match dice.below(8) {
            // The queues fill.
            0 => (70, 2),
            // Nobody reads.
            1..=4 => (6, 0),
            // Words flow.
            5 | 6 => (8, 20),
            // The tree empties.
            _ => (1, 30),
        };
        Mood {
            sends,
            takes,
            bad: dice.between(3, 12),
        }
    }
}

// A card, now and then one that is not there.
fn some_card(dice: &mut Dice, cards: u16) -> u16 {
    match dice.below(64) {
        0 => cards,
        1 => (dice.word() & 0xffff) as u16,
        _ => dice.card(cards),
    }
}

fn send(heap: Global, dice: &mut Dice, model: &Simulator, bad: bool) -> Result<Call, AllocError> {
    let card = some_card(dice, model.family.cards());
    let packet = if bad {
        bad_packet(heap, dice, &model.family, card)?
    } else {
        good_packet(heap, dice, &model.family, card)?
    };
    Ok(Call::Send { card, packet })
}

// Any card, station and input.
fn any_fire(dice: &mut Dice, cards: u16) -> Call {
    let station = if dice.one_in(2) {
        Station::Up
    } else {
        Station::Down
    };
    let input = match dice.below(5) {
        0 => Input::Left,
        1 => Input::Right,
        2 => Input::Queue,
        3 => Input::Parent,
        _ => Input::Turn,
    };
    Call::Fire {
        card: some_card(dice, cards),
        station,
        input,
    }
}

// An input at which a word waits, if a few tries find one.
fn waiting_fire(dice: &mut Dice, model: &Simulator) -> Option<Call> {
    for _ in 0..12 {
        let card = dice.card(model.family.cards());
        let place = dice.below(5) as usize;
        let (station, input) = INPUTS.get(place).copied()?;
        if model.waiting(card, station, input).is_ok() {
            return Some(Call::Fire {
                card,
                station,
                input,
            });
        }
    }
    None
}

pub(crate) fn choose(
    heap: Global,
    dice: &mut Dice,
    mood: Mood,
    model: &Simulator,
) -> Result<Call, AllocError> {
    let bad = dice.one_in(mood.bad);
    let cards = model.family.cards();
    let draw = dice.below(100);
    if draw < mood.sends {
        return send(heap, dice, model, bad);
    }
    if draw < mood.sends.saturating_add(mood.takes) {
        return Ok(Call::Take {
            card: some_card(dice, cards),
        });
    }
    if draw == 99 {
        return Ok(Call::Owed);
    }
    if bad {
        return Ok(any_fire(dice, cards));
    }
    match waiting_fire(dice, model) {
        Some(call) => Ok(call),
        None => Ok(any_fire(dice, cards)),
    }
}
