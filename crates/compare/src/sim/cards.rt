// A card: its queue, its inbox, its two stations and its three links.
use station::Input;
use std::alloc::Global;
use std::collections::VecDeque;

// The links that a station writes to.
#[derive(Clone, Copy)]
pub struct Outputs {
    pub up: bool,
    pub turn: bool,
    pub left: bool,
    pub right: bool,
}

// What becomes of a packet's words at the card whose station it holds.
#[derive(Clone, Copy)]
pub enum Stay {
    // It goes on from here.
    Onward,
    // It stops here, and its key word has not passed yet.
    Waiting { flood: bool },
    Dropped,
    Kept,
}

// A held station: for which input, where the head went, and what becomes of later words here.
#[derive(Clone, Copy)]
pub struct Held {
    pub input: Input,
    pub outputs: Outputs,
    pub stay: Stay,
}

#[derive(Drop)]
pub struct Card {
    pub queue: VecDeque<u32>,
    pub inbox: VecDeque<u32>,
    pub up: Option<Held>,
    pub down: Option<Held>,
    pub up_link: Option<u32>,
    pub turn_link: Option<u32>,
    pub down_link: Option<u32>,
}

impl Card {
    pub(crate) fn new(heap: Global) -> Card {
        Card {
            queue: VecDeque::new(heap),
            inbox: VecDeque::new(heap),
            up: None,
            down: None,
            up_link: None,
            turn_link: None,
            down_link: None,
        }
    }
}
