// The subtree of a card, and the hops of a packet over any wiring.
ghost use Rattle.std.specs.Prelude.{◌≡◌, ℕ, ◌<◌, get_or};
ghost use Rattle.routing.specs.Subtrees.{of_daughter, covers, subtree_size, reach, hops_a_word, path_hops};

use crate::ancestors::up_from;
use crate::walks::Walk;
use packet::{Mode, Side};
use wiring::Wiring;

// Whether the subtree of `top` has the card. Parents have lower numbers, so the way up ends at `top` or passes it.
pub fn stands_over<W: Wiring>(wiring: &W, top: u16, card: u16) -> bool
    ensures { result ≡ covers (W.shape wiring.now) top card }
{
    up_from(wiring, card)
        .take_while(|above| *above >= top)
        .any(|above| above == top)
}

// The size of a daughter's subtree, where it is known; 0 where there is no daughter.
fn size_below<W: Wiring>(wiring: &W, card: u16, side: Side, sizes: &[u16; 31]) -> u16
    ensures { result ≡ of_daughter (λ d. get_or sizes.now d 0) ((W.shape wiring.now).daughter side card) }
{
    match wiring.daughter(card, side) {
        Some(daughter) => sizes.get(usize::from(daughter)).copied().unwrap_or(0),
        None => 0,
    }
}

// The size of a card's subtree, once those of all cards with higher numbers are known.
fn size_from<W: Wiring>(wiring: &W, card: u16, sizes: &[u16; 31]) -> u16
    requires known { card < (W.shape wiring.now).cards }
    requires above { (c : ℕ) → card < c → get_or sizes.now c 0 ≡ subtree_size (W.shape wiring.now) c }
    ensures { result ≡ subtree_size (W.shape wiring.now) card }
{
    let left = size_below(wiring, card, Side::Left, sizes);
    let right = size_below(wiring, card, Side::Right, sizes);
    1 + left + right
}

// How many cards the subtree of this card has, itself counted. A daughter's number is above her parent's, so her size is known first.
pub fn subtree_size<W: Wiring>(wiring: &W, card: u16) -> u16
    ensures { result ≡ subtree_size (W.shape wiring.now) card }
{
    let mut sizes = [0; 31];
    let mut at = wiring.cards();
    while at > card {
        at -= 1;
        sizes[usize::from(at)] = size_from(wiring, at, &sizes);
    }
    match sizes.get(usize::from(card)) {
        Some(size) => *size,
        None => 0,
    }
}

// How many cards a packet of this mode and terminus reaches.
pub fn cards_reached<W: Wiring>(wiring: &W, mode: Mode, terminus: u16) -> u16
    ensures { result ≡ reach (W.shape wiring.now) mode terminus }
{
    match mode {
        Mode::Target => 1,
        Mode::Flood => subtree_size(wiring, terminus),
    }
}

// The stations that each word of a packet passes on this walk.
pub fn hops_a_word<W: Wiring>(wiring: &W, mode: Mode, walk: &Walk) -> u32
    ensures { result ≡ hops_a_word (W.shape wiring.now) mode walk.now }
{
    walk.hops(cards_reached(wiring, mode, walk.terminus))
}

// The path hops of a packet of so many words on this walk.
pub fn path_hops<W: Wiring>(wiring: &W, mode: Mode, walk: &Walk, words: u16) -> u64
    ensures { result ≡ path_hops (W.shape wiring.now) mode walk.now words }
{
    u64::from(words) * u64::from(hops_a_word(wiring, mode, walk))
}
