// Why the comparison ends early: the two sides differ, a law does not hold on the simulator's side, or memory is out.
ghost use Rattle.std.specs.Prelude.{◌≡◌};

use crate::calls::{Answer, Call};
use std::alloc::{AllocError, AllocFailed};
use std::fmt;

// The call after which the sides differ, and what each answers: to the call itself, or to 'owed' after it.
#[derive(Drop)]
pub struct Difference {
    pub seed: u64,
    // The calls before it in its run.
    pub before: u64,
    pub call: Call,
    pub router: Answer,
    pub simulator: Answer,
}

#[derive(Drop)]
pub enum Trouble {
    Memory,
    Differs(Difference),
    Law {
        seed: u64,
        before: u64,
        law: &'static str,
    },
    Setup(&'static str),
}

impl From<AllocError> for Trouble {
    ghost use Rattle.compare.specs.declared.troubles.Trouble.TheVariants.{Memory};

    ghost from_gives = { λ _ trouble. trouble ≡ Memory };

    fn from(_error: AllocError) -> Trouble {
        Trouble::Memory
    }
}

impl<T: Drop> From<AllocFailed<T>> for Trouble {
    ghost use Rattle.compare.specs.declared.troubles.Trouble.TheVariants.{Memory};

    ghost from_gives = { λ _ trouble. trouble ≡ Memory };

    fn from(_error: AllocFailed<T>) -> Trouble {
        Trouble::Memory
    }
}

impl fmt::Display for Difference {
    fn fmt<W: fmt::Write>(&self, f: &mut fmt::Formatter<W>) -> fmt::Result {
        write!(
            f,
            "run {}, after {} calls, at '{}': the router says '{}', the simulator '{}'",
            self.seed, self.before, self.call, self.router, self.simulator
        )
    }
}

impl fmt::Display for Trouble {
    fn fmt<W: fmt::Write>(&self, f: &mut fmt::Formatter<W>) -> fmt::Result {
        match self {
            Trouble::Memory => write!(f, "out of memory"),
            Trouble::Differs(difference) => write!(f, "{difference}\ndiffer"),
            Trouble::Law { seed, before, law } => {
                write!(f, "run {seed}, after {before} calls: {law}\ndiffer")
            }
            Trouble::Setup(what) => write!(f, "{what}\ndiffer"),
        }
    }
}
