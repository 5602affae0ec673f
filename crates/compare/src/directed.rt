// The edge of a queue, call by call: 62 words and a packet of two, 63 words and a packet of two.
use crate::calls::{Answer, Call};
use crate::drain::drain;
use crate::run::Run;
use crate::sim::{Family, Licences, Simulator};
use crate::tallies::Tally;
use crate::troubles::Trouble;
use licence::{Book, RangeRule};
use station::{Input, Station};
use std::alloc::{AllocError, Global};
use wiring::FullTree;

// The card that sends, and a route to itself.
const CARD: u16 = 1;

const HEAD: u32 = 0x8000_0080;

// A targeted packet of so many words.
fn packet(heap: Global, words: u32) -> Result<Vec<u32>, AllocError> {
    let mut packet = Vec::new(heap);
    packet.push(HEAD)?;
    for _ in 2..words {
        packet.push(0x11)?;
    }
    packet.push(0x4000_0011)?;
    Ok(packet)
}

fn send(heap: Global, words: u32) -> Result<Call, AllocError> {
    Ok(Call::Send {
        card: CARD,
        packet: packet(heap, words)?,
    })
}

fn fire(station: Station, input: Input) -> Call {
    Call::Fire {
        card: CARD,
        station,
        input,
    }
}

fn wants(answer: Answer, wanted: Answer) -> Result<(), Trouble> {
    if answer == wanted {
        Ok(())
    } else {
        Err(Trouble::Setup("the edge of a queue is not where it should be"))
    }
}

pub(crate) fn edge(heap: Global) -> Result<Tally, Trouble> {
    let rules: [RangeRule; 0] = [];
    let (Ok(wiring), Ok(book)) = (FullTree::new(2), Book::new(&rules)) else {
        return Err(Trouble::Setup("the edge of a queue is not set up"));
    };
    let family = Family::of(heap, &[1, 2, 255, 255, 255, 255])?;
    let licences = Licences {
        rules: Vec::new(heap),
        layers: Vec::new(heap),
    };
    let model = Simulator::new(heap, family, licences)?;
    let mut run = Run::new(heap, 0, wiring, book, model)?;
    let full = Answer::Refused {
        number: 12,
        place: None,
    };
    wants(run.call(send(heap, 62)?)?, Answer::Queued)?;
    wants(run.call(send(heap, 2)?)?, Answer::Queued)?;
    wants(run.call(send(heap, 2)?)?, full)?;
    wants(
        run.call(fire(Station::Up, Input::Queue))?,
        Answer::Outputs(2),
    )?;
    wants(run.call(send(heap, 2)?)?, full)?;
    wants(
        run.call(fire(Station::Down, Input::Turn))?,
        Answer::Outputs(0),
    )?;
    wants(
        run.call(fire(Station::Up, Input::Queue))?,
        Answer::Outputs(2),
    )?;
    wants(run.call(send(heap, 2)?)?, Answer::Queued)?;
    drain(&mut run)?;
    Ok(run.tally)
}
