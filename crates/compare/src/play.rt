// Plays one world: the router gets its wiring and its policy, the simulator its own lists of them, and calls come at random.
use crate::choices::{Mood, choose};
use crate::dice::Dice;
use crate::drain::drain;
use crate::kinds::Kinds;
use crate::policies::{pattern_rules, range_rules, withdrawn};
use crate::run::Run;
use crate::sim::{Family, Simulator};
use crate::tallies::Tally;
use crate::troubles::Trouble;
use crate::worlds::{World, draw};
use licence::{Book, Policy, Rule};
use std::alloc::Global;
use wiring::{FullTree, WiredTree, Wiring};

// A mood lasts so many calls, and a run has so many moods.
const STRETCH: u32 = 300;

const STRETCHES: u32 = 16;

// What a run needs beside the router's wiring and policy.
#[derive(Drop)]
struct Rest {
    heap: Global,
    seed: u64,
    kinds: Kinds,
    dice: Dice,
    model: Simulator,
}

// The run of this seed.
pub(crate) fn play_world(heap: Global, seed: u64) -> Result<Tally, Trouble> {
    let mut dice = Dice::new(seed);
    let world = draw(heap, &mut dice)?;
    let kinds = Kinds::of(&world);
    let World {
        levels,
        table,
        patterns,
        licences,
    } = world;
    let family = Family::of(heap, table.as_slice())?;
    let model = Simulator::new(heap, family, licences)?;
    let rest = Rest {
        heap,
        seed,
        kinds,
        dice,
        model,
    };
    match levels {
        Some(levels) => match FullTree::new(levels) {
            Ok(wiring) => with_rules(wiring, patterns, rest),
            Err(_) => Err(Trouble::Setup("a full tree is refused")),
        },
        None => match WiredTree::new(table.as_slice()) {
            Ok(wiring) => with_rules(wiring, patterns, rest),
            Err(_) => Err(Trouble::Setup("a lawful table is refused")),
        },
    }
}

fn with_rules<W: Wiring + Drop>(wiring: W, patterns: bool, rest: Rest) -> Result<Tally, Trouble> {
    let listed = rest.model.licences.rules.as_slice();
    if patterns {
        let rules = pattern_rules(rest.heap, listed)?;
        with_book(wiring, rules.as_slice(), rest)
    } else {
        let rules = range_rules(rest.heap, listed)?;
        with_book(wiring, rules.as_slice(), rest)
    }
}

fn with_book<W: Wiring + Drop, R: Rule + Drop>(
    wiring: W,
    rules: &[R],
    rest: Rest,
) -> Result<Tally, Trouble> {
    let Ok(book) = Book::new(rules) else {
        return Err(Trouble::Setup("a book is refused"));
    };
    match rest.model.licences.layers.as_slice() {
        [] => with_policy(wiring, book, rest),
        [keys] => {
            let policy = withdrawn(book, keys.as_slice());
            with_policy(wiring, policy, rest)
        }
        [lower, upper, ..] => {
            let below = withdrawn(book, lower.as_slice());
            let policy = withdrawn(below, upper.as_slice());
            with_policy(wiring, policy, rest)
        }
    }
}

fn with_policy<W: Wiring + Drop, P: Policy + Drop>(
    wiring: W,
    policy: P,
    rest: Rest,
) -> Result<Tally, Trouble> {
    let Rest {
        heap,
        seed,
        kinds,
        mut dice,
        model,
    } = rest;
    let mut run = Run::new(heap, seed, wiring, policy, model)?;
    run.tally.kinds = kinds;
    for _ in 0..STRETCHES {
        let mood = Mood::draw(&mut dice);
        for _ in 0..STRETCH {
            let call = choose(heap, &mut dice, mood, &run.model)?;
            run.call(call)?;
        }
    }
    drain(&mut run)?;
    Ok(run.tally)
}
