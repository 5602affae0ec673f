// Refusals of whoever builds a wiring or keeps the licences.
ghost use Rattle.std.specs.Prelude.{Some};
ghost use Rattle.refusal.specs.Sentences.{sentence, wiring_reason, licence_reason};
ghost use Rattle.refusal.specs.Refusals.{wiring_refusal, licence_refusal};

use crate::answer::Refusal;
use crate::fault::{Fault, write_sentence};
use std::fmt;

// A wiring that is not built: its size, or a table that is no tree.
#[derive(Clone, Copy, PartialEq, Eq)]
pub enum WiringFault {
    Size,
    Broken,
}

impl Fault for WiringFault {
    ghost refusal = { wiring_refusal };

    ghost reason = { wiring_reason };

    fn refusal(&self) -> Refusal {
        match *self {
            WiringFault::Size => Refusal::of(1),
            WiringFault::Broken => Refusal::of(2),
        }
    }

    fn reason(&self) -> &'static str {
        match *self {
            WiringFault::Size =>
                "a tree has 1 to 5 levels, and a table two entries for each of 1 to 31 cards",
            WiringFault::Broken =>
                "the table is no tree in which each card but 0 has one parent of a lower number",
        }
    }
}

impl fmt::Display for WiringFault {
    ghost output = { λ fault. Some (sentence (wiring_refusal fault) (wiring_reason fault)) };

    fn fmt<W: fmt::Write>(&self, f: &mut fmt::Formatter<W>) -> fmt::Result {
        write_sentence(self, f)
    }
}

// A rule or a book that is not taken.
#[derive(Clone, Copy)]
pub enum LicenceFault {
    BadRule,
    TooManyRules,
}

impl Fault for LicenceFault {
    ghost refusal = { licence_refusal };

    ghost reason = { licence_reason };

    fn refusal(&self) -> Refusal {
        match *self {
            LicenceFault::BadRule => Refusal::of(3),
            LicenceFault::TooManyRules => Refusal::of(4),
        }
    }

    fn reason(&self) -> &'static str {
        match *self {
            LicenceFault::BadRule =>
                "a bound, the class, the key value or the card set of the rule is out of range",
            LicenceFault::TooManyRules => "a book has at most 64 rules",
        }
    }
}

impl fmt::Display for LicenceFault {
    ghost output = { λ fault. Some (sentence (licence_refusal fault) (licence_reason fault)) };

    fn fmt<W: fmt::Write>(&self, f: &mut fmt::Formatter<W>) -> fmt::Result {
        write_sentence(self, f)
    }
}
