// Can the tree go on? Some fire is granted, or waits for an inbox alone; and no word waits that no rule lets pass.
use super::simulators::Simulator;
use super::words;
use station::{Input, Station};

// The stations with their inputs.
pub const INPUTS: [(Station, Input); 5] = [
    (Station::Up, Input::Left),
    (Station::Up, Input::Right),
    (Station::Up, Input::Queue),
    (Station::Down, Input::Parent),
    (Station::Down, Input::Turn),
];

impl Simulator {
    pub(crate) fn can_go_on(&self) -> bool {
        for card in 0..self.family.cards() {
            for (station, input) in INPUTS {
                match self.may_fire(card, station, input) {
                    Ok(_) => return true,
                    Err(no) => {
                        if no.number == 17 {
                            return true;
                        }
                    }
                }
            }
        }
        false
    }

    // Does a later word wait at a free station, or a head at the input that its station is held for?
    pub(crate) fn has_stray(&self) -> bool {
        for card in 0..self.family.cards() {
            for (station, input) in INPUTS {
                if let Ok(word) = self.waiting(card, station, input) {
                    let stray = match self.held(card, station) {
                        None => !words::is_head(word),
                        Some(held) => held.input == input && words::is_head(word),
                    };
                    if stray {
                        return true;
                    }
                }
            }
        }
        false
    }
}
