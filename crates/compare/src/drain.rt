// Drives a run to quiet, by fires and takes, and settles its books.
use crate::calls::{Answer, Call};
use crate::run::Run;
use crate::sim::INPUTS;
use crate::troubles::Trouble;
use licence::Policy;
use wiring::Wiring;

// No tree owes more hops than this.
const MOST_HOPS: u32 = 128_774;

pub(crate) fn drain<W: Wiring + Drop, P: Policy + Drop>(
    run: &mut Run<W, P>,
) -> Result<(), Trouble> {
    // Each round fires at least once, or takes and then fires.
    for _ in 0..MOST_HOPS {
        if run.model.owed() == 0 {
            break;
        }
        if !sweep(run)? {
            empty(run, 64)?;
        }
    }
    empty(run, 1)?;
    run.settle()
}

// Fires each input at which a word waits, and tells whether one was granted.
fn sweep<W: Wiring + Drop, P: Policy + Drop>(run: &mut Run<W, P>) -> Result<bool, Trouble> {
    let mut moved = false;
    for card in 0..run.model.family.cards() {
        for (station, input) in INPUTS {
            if run.model.waiting(card, station, input).is_ok() {
                let answer = run.call(Call::Fire {
                    card,
                    station,
                    input,
                })?;
                if matches!(answer, Answer::Outputs(_)) {
                    moved = true;
                }
            }
        }
    }
    Ok(moved)
}

// Takes all words of each inbox that has at least so many.
fn empty<W: Wiring + Drop, P: Policy + Drop>(
    run: &mut Run<W, P>,
    least: usize,
) -> Result<(), Trouble> {
    for card in 0..run.model.family.cards() {
        let words = run.model.inbox_len(card);
        if words >= least {
            for _ in 0..words {
                run.call(Call::Take { card })?;
            }
        }
    }
    Ok(())
}
