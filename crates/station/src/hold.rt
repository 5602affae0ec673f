// The two stations of a card, their inputs, and how a station stands.
ghost use Rattle.std.specs.Prelude.{◌≡◌};
ghost use Rattle.station.specs.Holds.{merge_held, merge, after};

use packet::Kind;
use refusal::FireFault;

// The stations of a card.
#[derive(Clone, Copy)]
pub enum Station {
    Up,
    Down,
}

// The inputs of the stations: the up station has the first three, the down station the last two.
#[derive(Clone, Copy, PartialEq, Eq)]
pub enum Input {
    Left,
    Right,
    Queue,
    Parent,
    Turn,
}

// What becomes of a word at the card itself: it only goes on, or it is dropped, or this word enters the inbox.
#[derive(Clone, Copy)]
pub enum Here {
    Onward,
    Dropped,
    Kept(u32),
}

// How a station stands: free, or held for an input by a packet, whose head is kept as it came. A down station at which the packet stops
// drops or accepts it, once its key word has passed. Three variants with the same fields, since the laws of the network speak of each by name.
#[derive(Clone, Copy)]
pub enum Hold<I> {
    Free,
    Held { input: I, head: u32 },
    Dropping { input: I, head: u32 },
    Accepting { input: I, head: u32 },
}

impl Hold<Input> {
    // May the word that waits at this input pass? A free station takes only a head, and a held one only later words, from its input.
    #[inline(always)]
    pub fn admits(&self, input: Input, word: u32) -> Result<(), FireFault>
        ensures { result ≡ merge self.now input word }
    {
        match (*self, Kind::of(word)) {
            (Hold::Free, Kind::Head) => Ok(()),
            (Hold::Free, _) => Err(FireFault::NothingWaits),
            (
                Hold::Held { input: holder, .. }
                | Hold::Dropping { input: holder, .. }
                | Hold::Accepting { input: holder, .. },
                kind,
            ) => later(holder, input, kind),
        }
    }
}

// A later word at an input, while the station is held for the holder.
#[inline(always)]
fn later(holder: Input, input: Input, kind: Kind) -> Result<(), FireFault>
    ensures { result ≡ merge_held holder input kind }
{
    if holder != input {
        return Err(FireFault::HeldByOther);
    }
    match kind {
        Kind::Head => Err(FireFault::NothingWaits),
        _ => Ok(()),
    }
}

impl Hold<Input> {
    // The word has passed.
    #[inline(always)]
    pub fn pass(&mut self, input: Input, word: u32, here: Here)
        ensures { self.new ≡ after self.old input word here }
    {
        match (*self, Kind::of(word), here) {
            (_, Kind::Tail, _) => *self = Hold::Free,
            (Hold::Free, _, _) => *self = Hold::Held { input, head: word },
            (Hold::Held { input, head }, _, Here::Kept(_)) => *self = Hold::Accepting {
                input,
                head,
            },
            (Hold::Held { input, head }, _, Here::Dropped) => *self = Hold::Dropping {
                input,
                head,
            },
            (_, _, _) => {}
        }
    }
}
