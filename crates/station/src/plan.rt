// What a station does with a word that may pass.
ghost use Rattle.std.specs.Prelude.{◌≡◌, not};
ghost use Rattle.station.specs.Plans.{up_by, upward, sum_of};

use crate::hold::{Here, Hold, Input};
use packet::{advance, top_bit};
use wiring::CardId;

// What one fire writes: a word to the links named, where C names a daughter, and what becomes of the word at the card itself.
// Up and turn are plain flags and no Options of a word, since all links named get the one word.
#[derive(Clone, Copy)]
pub struct Plan<C> {
    pub up: bool,
    pub turn: bool,
    pub left: Option<C>,
    pub right: Option<C>,
    pub word: u32,
    pub here: Here,
}

impl<C> Plan<C> {
    // The outputs written, as a sum: a number, since it is the product's answer to the host.
    #[inline(always)]
    pub fn sum(&self) -> u8
        ensures { result ≡ sum_of self.now }
    {
        u8::from(self.up)
            + 2 * u8::from(self.turn)
            + 4 * u8::from(self.left.is_some())
            + 8 * u8::from(self.right.is_some())
            + 16 * u8::from(matches!(self.here, Here::Kept(_)))
    }
}

// A 1 goes to the up link, which card 0 has not, and a 0 to the turn link.
#[inline(always)]
fn up_by(card: u16, top: bool, word: u32) -> Plan<CardId>
    ensures { result ≡ up_by card top word }
{
    Plan {
        up: top && card != 0,
        turn: !top,
        left: None,
        right: None,
        word,
        here: Here::Onward,
    }
}

// What the up station of a card does with a word.
#[inline(always)]
pub fn up_plan(card: u16, hold: Hold<Input>, word: u32) -> Plan<CardId>
    ensures { result ≡ upward card hold word }
{
    match hold {
        Hold::Free => up_by(card, top_bit(word), advance(word)),
        Hold::Held { head, .. } | Hold::Dropping { head, .. } | Hold::Accepting { head, .. } => {
            up_by(card, top_bit(head), word)
        }
    }
}
