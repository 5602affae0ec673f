// Plans the routes of a batch of orders: a wiring first, then an order to a line. Each line is answered, and a summary ends the answers.
#![tactic(auto)]

ghost use Rattle.std.specs.Prelude.{◌≡◌, Some, None, OnOk, IfSome};
ghost use Rattle.std.specs.Io.KnownBytes.{Appends};
ghost use Rattle.wiring.specs.Cabinets.{cabinet_shape};
ghost use Rattle.plan.specs.Tallies.{nothing_counted, one_refused, tally_text};
ghost use Rattle.plan.specs.Decks.{Printed, AllTold, WholeTold, LineTold, WiringTold, OrderTold, refused_text, line_text};

use planner::{PlanFault, answer_order, read_wiring};
use std::alloc::Global;
use std::io::{BufRead, BufReader, BufWriter, Write};
use std::{fmt, io};
use wiring::{Cabinet, Wiring};

// How many lines were answered so far.
#[derive(Clone, Copy, Default)]
struct Tally {
    planned: u64,
    refused: u64,
}

impl fmt::Display for Tally {
    ghost output = { λ tally. Some (tally_text tally) };

    fn fmt<W: fmt::Write>(&self, f: &mut fmt::Formatter<W>) -> fmt::Result {
        write!(
            f,
            "orders planned {}, lines refused {}",
            self.planned, self.refused
        )
    }
}

// A deck that is being answered: where the answers go, and the wiring, once a line has stated one.
#[derive(Drop)]
struct Deck<O> {
    out: O,
    heap: Global,
    cabinet: Option<Cabinet>,
    tally: Tally,
}

impl<O: Write> Deck<O> {
    // A deck of which nothing is answered yet.
    fn new(out: O, heap: Global) -> Deck<O>
        ensures out { result.out ≡ out }
        ensures wiring { result.cabinet ≡ None }
        ensures tally { result.tally ≡ nothing_counted }
    {
        Deck {
            out,
            heap,
            cabinet: None,
            tally: Tally::default(),
        }
    }

    // Answers a whole input: its lines, and then the summary.
    fn run<R: BufRead + Drop>(&mut self, input: R) -> io::Result<()>
        ensures { OnOk result (IfSome (R.remaining input) (λ bytes. WholeTold O.contents self.old bytes self.new)) }
    {
        self.answer_all(input)?;
        self.end()
    }

    // Answers each line of the input in turn. The last one may lack its newline.
    #[tactic(auto, using(crate::proofs::Answering::starts, crate::proofs::Answering::ends))]
    fn answer_all<R: BufRead + Drop>(&mut self, input: R) -> io::Result<()>
        ensures { OnOk result (IfSome (R.remaining input) (λ bytes. AllTold O.contents self.old bytes self.new)) }
    {
        for line in input.split(self.heap, b'\n') {
            self.answer(line?.as_slice())?;
        }
        Ok(())
    }

    // Answers a line: the first ones state the wiring, and the others are orders.
    fn answer(&mut self, line: &[u8]) -> io::Result<()>
        ensures { OnOk result (LineTold O.contents self.old line.now self.new) }
    {
        match self.cabinet {
            None => self.wire(line),
            Some(cabinet) => self.plan(&cabinet, line),
        }
    }

    // Answers a line before the wiring is known.
    fn wire(&mut self, line: &[u8]) -> io::Result<()>
        ensures { OnOk result (WiringTold O.contents line.now self.old self.new) }
    {
        match read_wiring(self.heap, line) {
            Ok(cabinet) => {
                self.cabinet = Some(cabinet);
                writeln!(self.out, "a tree of {} cards", cabinet.cards())
            }
            Err(fault) => self.refuse(fault),
        }
    }

    // Answers an order.
    fn plan(&mut self, cabinet: &Cabinet, line: &[u8]) -> io::Result<()>
        ensures { OnOk result (OrderTold O.contents (cabinet_shape cabinet.now) line.now self.old self.new) }
    {
        match answer_order(self.heap, cabinet, line) {
            Ok(plan) => {
                self.tally.planned = self.tally.planned.saturating_add(1);
                writeln!(self.out, "{plan}")
            }
            Err(fault) => self.refuse(fault),
        }
    }

    fn refuse(&mut self, fault: PlanFault) -> io::Result<()>
        ensures { OnOk result (Printed O.contents (refused_text fault) self.old.cabinet (one_refused self.old.tally) self.old self.new) }
    {
        self.tally.refused = self.tally.refused.saturating_add(1);
        writeln!(self.out, "refused by {fault}")
    }

    // Ends the answers by the summary.
    fn end(&mut self) -> io::Result<()>
        ensures { OnOk result (Appends (O.contents self.old.out) (O.contents self.new.out) (line_text (tally_text self.old.tally))) }
    {
        writeln!(self.out, "{}", self.tally)?;
        self.out.flush()
    }
}

fn main(rt: HostRuntime) -> io::Result<()> {
    let heap = rt.alloc();
    let mut deck = Deck::new(BufWriter::new(heap, rt.stdout())?, heap);
    deck.run(BufReader::new(heap, rt.stdin())?)
}
