// One card: its queue, inbox, links and stations.
ghost use Rattle.std.specs.Prelude.{◌≡◌};
ghost use Rattle.network.specs.Cards.{blank};

use crate::ring::Ring;
use station::{Hold, Input};
use std::marker::Model;

#[derive(Drop)]
pub(crate) struct Card {
    pub(crate) queue: Ring,
    pub(crate) inbox: Ring,
    pub(crate) uplink: Option<u32>,
    pub(crate) turnlink: Option<u32>,
    pub(crate) downlink: Option<u32>,
    pub(crate) up: Hold<Input>,
    pub(crate) down: Hold<Input>,
}

// Clauses see the card of the network's definitions.
impl Model for Card {
    ghost use Rattle.network.specs.Cards.{Card as NetworkCard};

    ghost Value = { NetworkCard };

    ghost view = { λ c. record { queue = c.queue; inbox = c.inbox; up_link = c.uplink; turn_link = c.turnlink; down_link = c.downlink; up = c.up; down = c.down } };
}

impl Card {
    pub(crate) fn blank() -> Card
        ensures { result ≡ blank }
    {
        Card {
            queue: Ring::empty(),
            inbox: Ring::empty(),
            uplink: None,
            turnlink: None,
            downlink: None,
            up: Hold::Free,
            down: Hold::Free,
        }
    }
}
