// One run: a router and a simulator of the same wiring and policy, on which each call is made and compared.
use crate::books::Books;
use crate::calls::{Answer, Call};
use crate::sim::{Simulator, words};
use crate::tallies::Tally;
use crate::troubles::{Difference, Trouble};
use licence::Policy;
use router::Tree;
use std::alloc::{AllocError, Global};
use wiring::Wiring;

#[derive(Drop)]
pub struct Run<W: Wiring, P: Policy> {
    seed: u64,
    tree: Tree<W, P>,
    pub model: Simulator,
    books: Books,
    pub tally: Tally,
}

impl<W: Wiring + Drop, P: Policy + Drop> Run<W, P> {
    pub(crate) fn new(
        heap: Global,
        seed: u64,
        wiring: W,
        policy: P,
        model: Simulator,
    ) -> Result<Run<W, P>, AllocError> {
        let books = Books::new(heap, model.family.cards())?;
        Ok(Run {
            seed,
            tree: Tree::new(wiring, policy),
            model,
            books,
            tally: Tally::new(),
        })
    }

    // Makes a call on both sides. Their answers are the same, and so are the hops owed after it, or the run ends.
    pub(crate) fn call(&mut self, call: Call) -> Result<Answer, Trouble> {
        let simulator = self.simulate(&call)?;
        let router = self.route(&call);
        if router != simulator {
            return Err(self.difference(call, router, simulator));
        }
        let owed = self.model.owed();
        let kept = u64::from(self.tree.owed());
        if kept != owed {
            return Err(self.difference(call, Answer::Hops(kept), Answer::Hops(owed)));
        }
        if !self.books.balance(owed) {
            return Err(self.broken("hops owed and fires are not the path hops"));
        }
        if self.model.has_stray() {
            return Err(self.broken("a word that no rule lets pass"));
        }
        if owed > 0 && !self.model.can_go_on() {
            return Err(self.broken("hops are owed, and no fire waits for less than an inbox"));
        }
        self.note(&call, simulator, owed);
        Ok(simulator)
    }

    fn route(&mut self, call: &Call) -> Answer {
        match call {
            Call::Send { card, packet } => match self.tree.send(*card, packet.as_slice()) {
                Ok(()) => Answer::Queued,
                Err(fault) => Answer::fault(fault),
            },
            Call::Fire {
                card,
                station,
                input,
            } => match self.tree.fire(*card, *station, *input) {
                Ok(sum) => Answer::Outputs(sum),
                Err(fault) => Answer::fault(fault),
            },
            Call::Take { card } => match self.tree.take(*card) {
                Ok(word) => Answer::Word(word),
                Err(fault) => Answer::fault(fault),
            },
            Call::Owed => Answer::Hops(u64::from(self.tree.owed())),
        }
    }

    // The simulator's answer, with the laws' books.
    fn simulate(&mut self, call: &Call) -> Result<Answer, AllocError> {
        match call {
            Call::Send { card, packet } => self.simulate_send(*card, packet.as_slice()),
            Call::Fire {
                card,
                station,
                input,
            } => match self.model.may_fire(*card, *station, *input) {
                Ok(passage) => {
                    self.model.fire(*card, *station, *input, passage)?;
                    self.books.fired();
                    Ok(Answer::Outputs(passage.sum()))
                }
                Err(no) => Ok(Answer::no(no)),
            },
            Call::Take { card } => match self.model.take(*card) {
                Ok(word) => {
                    self.books.took(*card, word)?;
                    Ok(Answer::Word(word))
                }
                Err(no) => Ok(Answer::no(no)),
            },
            Call::Owed => Ok(Answer::Hops(self.model.owed())),
        }
    }

    fn simulate_send(&mut self, card: u16, packet: &[u32]) -> Result<Answer, AllocError> {
        match self.model.may_send(card, packet) {
            Ok(journey) => {
                self.model.send(card, packet)?;
                self.books.sent(&self.model, journey, packet)?;
                Ok(Answer::Queued)
            }
            Err(no) => Ok(Answer::no(no)),
        }
    }

    fn difference(&self, call: Call, router: Answer, simulator: Answer) -> Trouble {
        Trouble::Differs(Difference {
            seed: self.seed,
            before: self.tally.calls(),
            call,
            router,
            simulator,
        })
    }

    fn broken(&self, law: &'static str) -> Trouble {
        Trouble::Law {
            seed: self.seed,
            before: self.tally.calls(),
            law,
        }
    }

    fn note(&mut self, call: &Call, answer: Answer, owed: u64) {
        self.tally.call(call, answer);
        if let (Call::Send { packet, .. }, Answer::Queued) = (call, answer) {
            if let Some(head) = packet.first() {
                self.tally.queued(words::floods(*head), packet.len());
            }
        }
        for card in &self.model.cards {
            self.tally.sizes(card.queue.len(), card.inbox.len(), owed);
        }
    }

    // At quiet, with empty inboxes: are each card's words its due arrivals?
    pub(crate) fn settle(&mut self) -> Result<(), Trouble> {
        if self.books.settle()? {
            Ok(())
        } else {
            Err(self.broken("a card's words are not its arrivals"))
        }
    }
}
