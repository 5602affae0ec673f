// Heads and key words, read into their fields and written again.
ghost use Rattle.std.specs.Prelude.{◌≡◌, Some};
ghost use Rattle.packet.specs.Routes.{route_in};
ghost use Rattle.packet.specs.Heads.{mode_of, mode_name, head_word, key_word_of, stamped};

use crate::routes::Route;
use crate::steps::floods;
use std::fmt;

// A packet goes to one card, or floods a card and all cards below it.
#[derive(Clone, Copy, PartialEq, Eq)]
pub enum Mode {
    Target,
    Flood,
}

impl fmt::Display for Mode {
    ghost output = { λ mode. Some (mode_name mode) };

    fn fmt<W: fmt::Write>(&self, f: &mut fmt::Formatter<W>) -> fmt::Result {
        f.write_str(match self {
            Mode::Target => "target",
            Mode::Flood => "flood",
        })
    }
}

// The first word of a packet.
#[derive(Clone, Copy)]
pub struct Head {
    pub mode: Mode,
    pub route: Route,
}

impl Head {
    // The mode and the route of a head. Its other bits are dropped, so this is no From.
    #[tactic(auto, unfolding(crate::specs::Heads::floods))]
    pub fn read(word: u32) -> Head
        ensures mode { result.mode ≡ mode_of word }
        ensures route { result.route.bits ≡ route_in word }
    {
        let mode = if floods(word) {
            Mode::Flood
        } else {
            Mode::Target
        };
        Head {
            mode,
            route: Route::low(word),
        }
    }
}

// The head as a word.
impl From<Head> for u32 {
    ghost from_gives = { λ head word. word ≡ head_word head.mode head.route.bits };

    fn from(head: Head) -> u32 {
        let mode = match head.mode {
            Mode::Target => 0,
            Mode::Flood => 0x2000_0000,
        };
        0x8000_0000 + mode + u32::from(u16::from(head.route))
    }
}

// The second word of a packet, as it is delivered; as sent it has class 0.
#[derive(Clone, Copy)]
pub struct KeyWord {
    pub class: u8,
    pub key: u8,
}

impl KeyWord {
    // The class and the key of a key word. Its other bits are dropped, so this is no From.
    pub fn read(word: u32) -> KeyWord
        ensures { result ≡ key_word_of word }
    {
        KeyWord {
            class: (word / 0x1000_0000 % 4) as u8,
            key: (word % 256) as u8,
        }
    }

    // A key word with a class written in; of the class the low two bits count.
    pub fn stamp(word: u32, class: u8) -> u32
        ensures { result ≡ stamped word class }
    {
        word / 0x4000_0000 * 0x4000_0000 + u32::from(class % 4) * 0x1000_0000 + word % 0x1000_0000
    }
}
