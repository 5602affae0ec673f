// The route maker: the head of a packet from a sender to a list of cards, over any wiring.
// Plain numbers stand for the cards: a struct of a wiring and a card would have each step say that its two cards are of one wiring.
ghost use Rattle.std.specs.Prelude.{◌≡◌, ℕ, ◌<◌, true, [], ◌∷◌, Some, Result};
ghost use Rattle.refusal.specs.declared.order.OrderFault.{OrderFault};
ghost use Rattle.packet.specs.Courses.{sides_told, course_told};
ghost use Rattle.routing.specs.Walks.{climb};
ghost use Rattle.routing.specs.Subtrees.{covers};
ghost use Rattle.routing.specs.Orders.{all_there, mode_for, LowestOf, WayDown, CourseTo, HeadTo, head_in, Ordered, head_told};

use crate::ancestors::up_from;
use packet::{Course, Head, Mode, Side, Sides};
use refusal::OrderFault;
use wiring::Wiring;

// The lowest card over both, if there is one: of two cards the one with the higher number is not above the other, so it goes up.
fn meet<W: Wiring>(wiring: &W, a: u16, b: u16) -> Option<u16>
    ensures { LowestOf (W.shape wiring.now) (a ∷ b ∷ []) result }
{
    let mut x = a;
    let mut y = b;
    while x != y {
        if x > y {
            x = wiring.parent(x)?.0;
        } else {
            y = wiring.parent(y)?.0;
        }
    }
    Some(x)
}

// The lowest card over this one and all the others, if there is one.
fn lowest<W: Wiring>(wiring: &W, first: u16, others: &[u16]) -> Option<u16>
    ensures { LowestOf (W.shape wiring.now) (first ∷ others.now) result }
{
    let mut over = first;
    for card in others {
        over = meet(wiring, over, *card)?;
    }
    Some(over)
}

// How many links it is up from this card to one that stands over it.
fn links_up<W: Wiring>(wiring: &W, card: u16, top: u16) -> u16
    requires { covers (W.shape wiring.now) top card ≡ true }
    ensures { climb (W.shape wiring.now) result card ≡ Some top }
{
    up_from(wiring, card)
        .take_while(|above| *above != top)
        .count() as u16
}

// The sides of the way down to this card from one that stands over it, or none where there are too many.
fn sides_down<W: Wiring>(wiring: &W, top: u16, card: u16) -> Option<Sides>
    requires { covers (W.shape wiring.now) top card ≡ true }
    ensures { WayDown (W.shape wiring.now) top card (sides_told result) }
{
    let mut at = card;
    let mut sides = Sides::none();
    while at != top {
        // A card below the top has a parent.
        let (parent, side) = wiring.parent(at)?;
        sides = sides.after(side)?;
        at = parent;
    }
    Some(sides)
}

// The way from the sender to the terminus, up to the lowest card over both and down again, as far as a route has room for its sides.
fn course_to<W: Wiring>(wiring: &W, sender: u16, terminus: u16) -> Option<Course>
    requires sender { sender < (W.shape wiring.now).cards }
    requires terminus { terminus < (W.shape wiring.now).cards }
    ensures { CourseTo (W.shape wiring.now) sender terminus (course_told result) }
{
    // Card 0 stands over both, so there is a lowest.
    let turn = meet(wiring, sender, terminus)?;
    let ups = links_up(wiring, sender, turn);
    let sides = sides_down(wiring, turn, terminus)?;
    Some(Course { ups, sides })
}

// The head that leads from the sender to the terminus, or none where the way is too long for a route.
fn head_to<W: Wiring>(wiring: &W, sender: u16, terminus: u16, mode: Mode) -> Option<Head>
    requires sender { sender < (W.shape wiring.now).cards }
    requires terminus { terminus < (W.shape wiring.now).cards }
    ensures { HeadTo (W.shape wiring.now) sender terminus mode (head_in result) }
{
    let course = course_to(wiring, sender, terminus)?;
    let route = course.route()?;
    Some(Head { mode, route })
}

// One distinct card makes a targeted packet, more make it flood.
fn mode_for(first: u16, others: &[u16]) -> Mode
    ensures { result ≡ mode_for (first ∷ others.now) }
{
    if others.iter().all(|card| first == *card) {
        Mode::Target
    } else {
        Mode::Flood
    }
}

// Whether the sender and all these cards are there.
fn all_there<W: Wiring>(wiring: &W, sender: u16, cards: &[u16]) -> bool
    ensures { result ≡ all_there (W.shape wiring.now) (sender ∷ cards.now) }
{
    let n = wiring.cards();
    sender < n && cards.iter().all(|card| *card < n)
}

// The head of a packet from the sender to these cards. An order has no other answer.
pub fn order<W: Wiring>(wiring: &W, sender: u16, cards: &[u16]) -> Result<Head, OrderFault>
    ensures answer { Ordered (W.shape wiring.now) sender cards.now (head_told result) }
    ensures only { (q : Result ℕ OrderFault) → Ordered (W.shape wiring.now) sender cards.now q → q ≡ head_told result }
{
    if !all_there(wiring, sender, cards) {
        return Err(OrderFault::Unknown);
    }
    let [first, others @ ..] = cards else {
        return Err(OrderFault::NoneListed);
    };
    // Card 0 stands over them all, so there is a lowest.
    let terminus = lowest(wiring, *first, others).ok_or(OrderFault::Unknown)?;
    head_to(wiring, sender, terminus, mode_for(*first, others)).ok_or(OrderFault::TooLong)
}
