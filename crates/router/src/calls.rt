// The five calls. Nothing else touches a tree.
//
// Each promises its defined answer and its defined next tree; a refused call's next tree is the tree. And for whatever calls have led to the
// tree as it came, with this one they have led to the tree as it is now, and the three laws hold there.
ghost use Rattle.std.specs.Prelude.{◌≡◌, ℕ, List, []};
ghost use Rattle.network.specs.Owed.{hops_owed};
ghost use Rattle.network.specs.Runs.{Call, send, fire, take, owed};
ghost use Rattle.router.specs.Kept.{tree_of, SameParts, Led, Stands, Keeps};
ghost use Rattle.router.specs.Calls.{new_tree, send_answer, sent_tree, fire_answer, fired_tree, take_answer, took_tree};

use crate::tree::Tree;
use licence::Policy;
use refusal::{FireFault, PacketFault, TakeFault};
use routing::Measured;
use station::{Input, Station};
use store::Table;
use wiring::Wiring;

impl<W: Wiring, P: Policy> Tree<W, P> {
    // Sets up an empty tree.
    #[inline(always)]
    pub fn new(wiring: W, policy: P) -> Tree<W, P>
        ensures tree { tree_of W.shape P.verdict result ≡ new_tree (W.shape wiring) (P.verdict policy) }
        ensures laws { Stands [] (tree_of W.shape P.verdict result) }
    {
        Tree {
            wiring: Measured::new(wiring),
            policy,
            table: Table::empty(),
            owed: 0,
        }
    }

    // Queues a whole packet at a card, or nothing.
    pub fn send(&mut self, card: u16, packet: &[u32]) -> Result<(), PacketFault>
        ensures answer { result ≡ send_answer card packet.now (tree_of W.shape P.verdict self.old) }
        ensures next { tree_of W.shape P.verdict self.new ≡ sent_tree card packet.now (tree_of W.shape P.verdict self.old) }
        ensures same { SameParts self.old self.new }
        ensures laws { Keeps (send card packet.now) (tree_of W.shape P.verdict self.old) (tree_of W.shape P.verdict self.new) }
    {
        self.send_step(card, packet)
    }

    // Moves one word through one station, to all its outputs together or not at all; answers the outputs written as a sum: 1 up link, 2 turn
    // link, 4 left, 8 right, 16 inbox.
    pub fn fire(&mut self, card: u16, station: Station, input: Input) -> Result<u8, FireFault>
        ensures answer { result ≡ fire_answer card station input (tree_of W.shape P.verdict self.old) }
        ensures next { tree_of W.shape P.verdict self.new ≡ fired_tree card station input (tree_of W.shape P.verdict self.old) }
        ensures same { SameParts self.old self.new }
        ensures laws { Keeps (fire card station input) (tree_of W.shape P.verdict self.old) (tree_of W.shape P.verdict self.new) }
    {
        // One copy of the step for the up station, and two for the down station, one of them for the words from the parent.
        match (station, input) {
            (Station::Up, _) => self.fire_step(card, Station::Up, input),
            (Station::Down, Input::Parent) => self.fire_step(card, Station::Down, Input::Parent),
            (Station::Down, _) => self.fire_step(card, Station::Down, input),
        }
    }

    // Removes and returns the oldest word of an inbox.
    pub fn take(&mut self, card: u16) -> Result<u32, TakeFault>
        ensures answer { result ≡ take_answer card (tree_of W.shape P.verdict self.old) }
        ensures next { tree_of W.shape P.verdict self.new ≡ took_tree card (tree_of W.shape P.verdict self.old) }
        ensures same { SameParts self.old self.new }
        ensures laws { Keeps (take card) (tree_of W.shape P.verdict self.old) (tree_of W.shape P.verdict self.new) }
    {
        self.take_step(card)
    }

    // The hops owed: the stations that words in queues and links still have to pass. Changes nothing.
    pub fn owed(&self) -> u32
        ensures kept { result ≡ (tree_of W.shape P.verdict self.now).owed }
        ensures walked { (ks : List Call) → Led ks (tree_of W.shape P.verdict self.now) → result ≡ hops_owed (W.shape self.now.wiring) (tree_of W.shape P.verdict self.now).cards }
        ensures laws { Keeps owed (tree_of W.shape P.verdict self.now) (tree_of W.shape P.verdict self.now) }
    {
        self.owed
    }
}
