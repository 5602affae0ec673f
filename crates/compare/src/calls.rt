// The calls and their answers, as either side gives them.
use crate::sim::No;
use refusal::Fault;
use station::{Input, Station};
use std::fmt;

#[derive(Drop)]
pub enum Call {
    Send {
        card: u16,
        packet: Vec<u32>,
    },
    Fire {
        card: u16,
        station: Station,
        input: Input,
    },
    Take {
        card: u16,
    },
    Owed,
}

#[derive(Clone, Copy, PartialEq, Eq)]
pub enum Answer {
    Queued,
    Outputs(u8),
    Word(u32),
    Hops(u64),
    Refused { number: u8, place: Option<usize> },
}

impl Answer {
    // A refusal of the simulator.
    pub(crate) fn no(no: No) -> Answer {
        Answer::Refused {
            number: no.number,
            place: no.place,
        }
    }

    // A refusal of the router.
    pub(crate) fn fault<F: Fault + Drop>(fault: F) -> Answer {
        let refusal = fault.refusal();
        Answer::Refused {
            number: refusal.number,
            place: refusal.place,
        }
    }
}

fn station_name(station: Station) -> &'static str {
    match station {
        Station::Up => "up",
        Station::Down => "down",
    }
}

fn input_name(input: Input) -> &'static str {
    match input {
        Input::Left => "left",
        Input::Right => "right",
        Input::Queue => "queue",
        Input::Parent => "parent",
        Input::Turn => "turn",
    }
}

impl fmt::Display for Call {
    fn fmt<W: fmt::Write>(&self, f: &mut fmt::Formatter<W>) -> fmt::Result {
        match self {
            Call::Send { card, packet } => {
                write!(f, "send {card}")?;
                for word in packet {
                    write!(f, " {word:08x}")?;
                }
                Ok(())
            }
            Call::Fire {
                card,
                station,
                input,
            } => {
                write!(
                    f,
                    "fire {card} {} {}",
                    station_name(*station),
                    input_name(*input)
                )
            }
            Call::Take { card } => write!(f, "take {card}"),
            Call::Owed => write!(f, "owed"),
        }
    }
}

impl fmt::Display for Answer {
    fn fmt<W: fmt::Write>(&self, f: &mut fmt::Formatter<W>) -> fmt::Result {
        match self {
            Answer::Queued => write!(f, "queued"),
            Answer::Outputs(sum) => write!(f, "outputs {sum}"),
            Answer::Word(word) => write!(f, "word {word:08x}"),
            Answer::Hops(hops) => write!(f, "hops {hops}"),
            Answer::Refused {
                number,
                place: Some(place),
            } => write!(f, "refused by {number} at {place}"),
            Answer::Refused {
                number,
                place: None,
            } => write!(f, "refused by {number}"),
        }
    }
}
