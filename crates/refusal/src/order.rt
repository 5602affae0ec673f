// Refusals of route orders.
ghost use Rattle.std.specs.Prelude.{Some};
ghost use Rattle.refusal.specs.Sentences.{sentence, order_reason};
ghost use Rattle.refusal.specs.Refusals.{order_refusal};

use crate::answer::Refusal;
use crate::fault::{Fault, write_sentence};
use std::fmt;

// A route that is not made.
#[derive(Clone, Copy)]
pub enum OrderFault {
    Unknown,
    NoneListed,
    TooLong,
}

impl Fault for OrderFault {
    ghost refusal = { order_refusal };

    ghost reason = { order_reason };

    fn refusal(&self) -> Refusal {
        match *self {
            OrderFault::Unknown => Refusal::of(5),
            OrderFault::NoneListed => Refusal::of(19),
            OrderFault::TooLong => Refusal::of(20),
        }
    }

    fn reason(&self) -> &'static str {
        match *self {
            OrderFault::Unknown => "there is no such card",
            OrderFault::NoneListed => "no card is listed",
            OrderFault::TooLong => "the way has more than 7 ups and descents together",
        }
    }
}

impl fmt::Display for OrderFault {
    ghost output = { λ fault. Some (sentence (order_refusal fault) (order_reason fault)) };

    fn fmt<W: fmt::Write>(&self, f: &mut fmt::Formatter<W>) -> fmt::Result {
        write_sentence(self, f)
    }
}
