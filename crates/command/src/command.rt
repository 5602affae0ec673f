// What a line of the console says.
use arrayvec::ArrayVec;
use licence::Span;
use station::{Input, Station};

// The most words that a send line can spell: a line has at most 200 bytes.
pub const MOST_WORDS: usize = 95;

// Room for the packet of a send line. It is lent to the reader, so that a command is small.
pub type PacketRoom = ArrayVec<u32, MOST_WORDS>;

// A command. A number is kept as it is written: whether there is such a card, class or number of levels is not asked here.
#[derive(Clone, Copy)]
pub enum Command<'a> {
    Tree {
        levels: u16,
    },
    // The class `None` is 'refuse'.
    Rule {
        cards: Span<u16>,
        keys: Span<u8>,
        class: Option<u16>,
    },
    Go,
    Send {
        card: u16,
        packet: &'a [u32],
    },
    Fire {
        card: u16,
        station: Station,
        input: Input,
    },
    Take {
        card: u16,
    },
    Owed,
}
