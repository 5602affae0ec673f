// Compares the proved router with a plain simulator, call by call, over random wirings, policies and orders of calls.
#![tactic(auto)]

mod books;
mod calls;
mod choices;
mod dice;
mod directed;
mod drain;
mod kinds;
mod packets;
mod play;
mod policies;
mod run;
mod sim;
mod tallies;
mod troubles;
mod worlds;

use directed::edge;
use play::play_world;
use std::alloc::Global;
use std::io;
use std::process::ExitCode;
use tallies::Tally;
use troubles::Trouble;

const RUNS: u64 = 40;

// The directed run, and then the random ones.
fn compare_all(heap: Global) -> Result<Tally, Trouble> {
    let mut all = edge(heap)?;
    for seed in 1..=RUNS {
        all.join(&play_world(heap, seed)?);
    }
    Ok(all)
}

// Ends with a status that is not 0 where the sides differ.
fn main(rt: HostRuntime) -> io::Result<ExitCode> {
    match compare_all(rt.alloc()) {
        Ok(tally) => {
            println!(rt; "{tally}\nall equal")?;
            Ok(ExitCode::SUCCESS)
        }
        Err(trouble) => {
            println!(rt; "{trouble}")?;
            Ok(ExitCode::FAILURE)
        }
    }
}
