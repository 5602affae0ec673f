// A tree of cards: its wiring with what is kept of each card, its licence policy, the table of its cards, and the hops owed as a kept number.
use licence::Policy;
use routing::Measured;
use store::Table;
use wiring::Wiring;

// It has no model, since the clauses of its calls name the wiring and the policy themselves.
#[derive(Drop)]
pub struct Tree<W: Wiring, P: Policy> {
    pub(crate) wiring: Measured<W>,
    pub(crate) policy: P,
    pub(crate) table: Table,
    pub(crate) owed: u32,
}
