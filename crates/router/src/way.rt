// The way of a packet: its mode, and where its route leads.
use packet::Mode;
use routing::Walk;
use std::marker::Model;

#[derive(Drop)]
pub(crate) struct Way {
    pub(crate) mode: Mode,
    pub(crate) walk: Walk,
}

// Clauses see the way of the network's definitions.
impl Model for Way {
    ghost use Rattle.network.specs.Sends.{Way as NetworkWay};

    ghost Value = { NetworkWay };

    ghost view = { λ w. record { mode = w.mode; walk = w.walk } };
}
