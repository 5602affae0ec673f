// What the calls are made of: the checks, the plan of a fire, and its writes. Card, station and input stay three arguments, as in the
// definitions that the clauses name.
ghost use Rattle.std.specs.Prelude.{◌≡◌};
ghost use Rattle.station.specs.Plans.{down_by, judged, downward, planned};
ghost use Rattle.network.specs.Fires.{located, hold_at, passing};
ghost use Rattle.router.specs.Inner.{lowered};
ghost use Rattle.router.specs.Kept.{SameParts};

use crate::tree::Tree;
use licence::{Policy, Verdict};
use packet::{KeyWord, Side, advance, floods, stops, top_bit};
use refusal::FireFault;
use station::{Channel, Here, Hold, Input, Plan, Station, up_plan};
use wiring::{CardId, Wiring};

impl<W: Wiring, P: Policy> Tree<W, P> {
    // The channel at an input.
    #[tactic(auto, unfolding(network::specs::Nodes::input_of, network::specs::Nodes::above, network::specs::Nodes::up_link_from, network::specs::Nodes::down_link_into))]
    #[inline(always)]
    pub(crate) fn locate(
        &self,
        card: CardId,
        station: Station,
        input: Input,
    ) -> Result<Channel, FireFault>
        ensures { result ≡ located (W.shape self.now.wiring) card station input }
    {
        let channel = match (station, input) {
            (Station::Up, Input::Left | Input::Right) => {
                let side = Side::from(input == Input::Right);
                self.wiring.daughter_at(card, side).map(Channel::UpLink)
            }
            (Station::Up, Input::Queue) => Some(Channel::Queued(card)),
            (Station::Down, Input::Parent) => {
                self.wiring.parent_at(card).map(|_| Channel::DownLink(card))
            }
            (Station::Down, Input::Turn) => Some(Channel::TurnLink(card)),
            (Station::Up, Input::Parent | Input::Turn)
            | (Station::Down, Input::Left | Input::Right | Input::Queue) => None,
        };
        channel.ok_or(FireFault::NoInput)
    }

    // What becomes here of the word after a head: at the stop of its packet the policy is asked.
    #[inline(always)]
    fn judge(&self, card: CardId, head: u32, word: u32) -> Here
        ensures { result ≡ judged (P.verdict self.now.policy) card head word }
    {
        if !stops(head) {
            return Here::Onward;
        }
        if !floods(head) {
            return Here::Kept(KeyWord::stamp(word, 0));
        }
        match self.policy.ask(card.number(), KeyWord::read(word).key) {
            Verdict::Refuse => Here::Dropped,
            Verdict::Class(class) => Here::Kept(KeyWord::stamp(word, class)),
        }
    }

    // A word goes where its head goes.
    #[inline(always)]
    fn follow(&self, card: CardId, head: u32, word: u32, here: Here) -> Plan<CardId>
        ensures { result ≡ down_by (W.shape self.now.wiring) card head word here }
    {
        let (left, right) = match (stops(head), floods(head), top_bit(head)) {
            (true, true, _) => (
                self.wiring.daughter_at(card, Side::Left),
                self.wiring.daughter_at(card, Side::Right),
            ),
            (true, false, _) => (None, None),
            (false, _, true) => (None, self.wiring.daughter_at(card, Side::Right)),
            (false, _, false) => (self.wiring.daughter_at(card, Side::Left), None),
        };
        Plan {
            up: false,
            turn: false,
            left,
            right,
            word,
            here,
        }
    }

    // What the down station does with a word.
    #[inline(always)]
    fn down_plan(&self, card: CardId, hold: Hold<Input>, word: u32) -> Plan<CardId>
        ensures { result ≡ downward (W.shape self.now.wiring) (P.verdict self.now.policy) card hold word }
    {
        match hold {
            Hold::Free => self.follow(card, word, advance(word), Here::Onward),
            Hold::Held { head, .. } => {
                self.follow(card, head, word, self.judge(card, head, word))
            }
            Hold::Dropping { head, .. } => self.follow(card, head, word, Here::Dropped),
            Hold::Accepting { head, .. } => self.follow(card, head, word, Here::Kept(word)),
        }
    }

    // Up or down.
    #[inline(always)]
    fn plan(&self, card: CardId, station: Station, word: u32) -> Plan<CardId>
        ensures { result ≡ planned (W.shape self.now.wiring) (P.verdict self.now.policy) card station (hold_at self.now.table card station) word }
    {
        let hold = self.table.hold(card, station);
        match station {
            Station::Up => up_plan(card.number(), hold, word),
            Station::Down => self.down_plan(card, hold, word),
        }
    }

    // The word that waits at an input goes through its station: merge, up or down, then all outputs together or not at all.
    #[inline(always)]
    pub(crate) fn move_word(
        &mut self,
        card: CardId,
        station: Station,
        input: Input,
        from: Channel,
        word: u32,
    ) -> Result<u8, FireFault>
        ensures answer { result ≡ (passing (W.shape self.old.wiring) (P.verdict self.old.policy) self.old.table card station input from word).answer }
        ensures next { self.new.table ≡ (passing (W.shape self.old.wiring) (P.verdict self.old.policy) self.old.table card station input from word).next }
        ensures same { SameParts self.old self.new }
        ensures owed { self.new.owed ≡ lowered self.old.owed result }
    {
        self.table.admits(card, station, input, word)?;
        let plan = self.plan(card, station, word);
        self.table.check(card, &plan)?;
        self.table.keep(card, plan.here);
        self.table.consume(from);
        self.table.write(card, &plan);
        self.table.pass(card, station, input, word, plan.here);
        self.owed = self.owed.saturating_sub(1);
        Ok(plan.sum())
    }
}
