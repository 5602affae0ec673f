// The plan of one order.
ghost use Rattle.std.specs.Prelude.{◌≡◌};
ghost use Rattle.planner.specs.Plans.{Planned};

use packet::Head;
use refusal::OrderFault;
use routing::{Walk, cards_reached, order, walk_route};
use wiring::Wiring;

// What an order comes to: the head, where its route leads, how many cards it reaches, and the hops of each word.
#[derive(Clone, Copy)]
pub struct Plan {
    pub head: Head,
    pub walk: Walk,
    pub reached: u16,
    pub hops: u32,
}

// The plan of an order from a sender to these cards.
pub fn plan_order<W: Wiring>(wiring: &W, sender: u16, cards: &[u16]) -> Result<Plan, OrderFault>
    ensures { Planned (W.shape wiring.now) sender cards.now result }
{
    let head = order(wiring, sender, cards)?;
    let walk = walk_route(wiring, sender, head.route).unwrap();
    let reached = cards_reached(wiring, head.mode, walk.terminus);
    Ok(Plan {
        head,
        walk,
        reached,
        hops: walk.hops(reached),
    })
}
