// The walk of a route over any wiring: up, the turn, and down to the terminus.
ghost use Rattle.std.specs.Prelude.{◌≡◌, ◌+◌, ℕ};
ghost use Rattle.packet.specs.Courses.{sides_in};
ghost use Rattle.routing.specs.Walks.{climb, descend, walk_of};

use crate::ancestors::up_from;
use packet::{Course, Route, Sides};
use refusal::RouteFault;
use wiring::Wiring;

// Where a route leads: the card where it turns, the terminus, and how many links up and down.
#[derive(Clone, Copy)]
pub struct Walk {
    pub turn: u16,
    pub terminus: u16,
    pub ups: u16,
    pub descents: u16,
}

impl Walk {
    // The stations that each word of a packet passes that reaches so many cards: an up station for each link up and at the turn, a down
    // station for each link down, and one on each card.
    pub fn hops(&self, reached: u16) -> u32
        ensures { result ≡ self.now.ups + 1 + self.now.descents + reached }
    {
        u32::from(self.ups) + 1 + u32::from(self.descents) + u32::from(reached)
    }
}

// The card so many links above this one.
fn climbed<W: Wiring>(wiring: &W, card: u16, ups: u16) -> Option<u16>
    ensures { result ≡ climb (W.shape wiring.now) ups card }
{
    up_from(wiring, card).nth(usize::from(ups))
}

// The card that is reached from this one by these sides.
#[tactic(auto, unfolding(crate::specs::Walks::descend))]
fn descended<W: Wiring>(wiring: &W, card: u16, sides: Sides) -> Result<u16, RouteFault>
    ensures { result ≡ descend (W.shape wiring.now) (sides_in sides) card }
{
    let mut at = card;
    for side in sides {
        at = wiring
            .daughter(at, side)
            .ok_or(RouteFault::NoDaughter { card: at })?;
    }
    Ok(at)
}

// Where the route leads from this card, or why it leads nowhere.
pub fn walk_route<W: Wiring>(wiring: &W, card: u16, route: Route) -> Result<Walk, RouteFault>
    ensures { result ≡ walk_of (W.shape wiring.now) card route.bits }
{
    let Course { ups, sides } = route.course().ok_or(RouteFault::EndsGoingUp { card })?;
    let turn = climbed(wiring, card, ups).ok_or(RouteFault::AboveRoot)?;
    let terminus = descended(wiring, turn, sides)?;
    Ok(Walk {
        turn,
        terminus,
        ups,
        descents: sides.count(),
    })
}
