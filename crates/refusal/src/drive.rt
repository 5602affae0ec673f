// Refusals of whoever drives fires, takes words, and reads what was delivered.
ghost use Rattle.std.specs.Prelude.{Some};
ghost use Rattle.refusal.specs.Sentences.{sentence, fire_reason, take_reason, delivery_reason};
ghost use Rattle.refusal.specs.Refusals.{fire_refusal, take_refusal, delivery_refusal};

use crate::answer::Refusal;
use crate::fault::{Fault, write_sentence};
use std::fmt;

// A fire that is not made.
#[derive(Clone, Copy)]
pub enum FireFault {
    NoCard,
    NoInput,
    NothingWaits,
    HeldByOther,
    LinkOccupied,
    InboxFull,
}

impl Fault for FireFault {
    ghost refusal = { fire_refusal };

    ghost reason = { fire_reason };

    fn refusal(&self) -> Refusal {
        match *self {
            FireFault::NoCard => Refusal::of(5),
            FireFault::NoInput => Refusal::of(13),
            FireFault::NothingWaits => Refusal::of(14),
            FireFault::HeldByOther => Refusal::of(15),
            FireFault::LinkOccupied => Refusal::of(16),
            FireFault::InboxFull => Refusal::of(17),
        }
    }

    fn reason(&self) -> &'static str {
        match *self {
            FireFault::NoCard => "there is no such card",
            FireFault::NoInput => "the station has no such input",
            FireFault::NothingWaits => "nothing waits at that input",
            FireFault::HeldByOther => "the station is held by another input",
            FireFault::LinkOccupied => "a link that is needed is occupied",
            FireFault::InboxFull => "the inbox is full",
        }
    }
}

impl fmt::Display for FireFault {
    ghost output = { λ fault. Some (sentence (fire_refusal fault) (fire_reason fault)) };

    fn fmt<W: fmt::Write>(&self, f: &mut fmt::Formatter<W>) -> fmt::Result {
        write_sentence(self, f)
    }
}

// A take that gives no word.
#[derive(Clone, Copy)]
pub enum TakeFault {
    NoReader,
    InboxEmpty,
}

impl Fault for TakeFault {
    ghost refusal = { take_refusal };

    ghost reason = { take_reason };

    fn refusal(&self) -> Refusal {
        match *self {
            TakeFault::NoReader => Refusal::of(5),
            TakeFault::InboxEmpty => Refusal::of(18),
        }
    }

    fn reason(&self) -> &'static str {
        match *self {
            TakeFault::NoReader => "there is no such card",
            TakeFault::InboxEmpty => "the inbox is empty",
        }
    }
}

impl fmt::Display for TakeFault {
    ghost output = { λ fault. Some (sentence (take_refusal fault) (take_reason fault)) };

    fn fmt<W: fmt::Write>(&self, f: &mut fmt::Formatter<W>) -> fmt::Result {
        write_sentence(self, f)
    }
}

// Delivered words that are no packet.
#[derive(Clone, Copy)]
pub enum DeliveryFault {
    WrongKind { place: usize },
    WrongBits { place: usize },
}

impl Fault for DeliveryFault {
    ghost refusal = { delivery_refusal };

    ghost reason = { delivery_reason };

    fn refusal(&self) -> Refusal {
        match *self {
            DeliveryFault::WrongKind { place } => Refusal::at(7, place),
            DeliveryFault::WrongBits { place } => Refusal::at(8, place),
        }
    }

    fn reason(&self) -> &'static str {
        match *self {
            DeliveryFault::WrongKind { .. } => "the word is of the wrong kind",
            DeliveryFault::WrongBits { .. } => "the key word has reserved bits set",
        }
    }
}

impl fmt::Display for DeliveryFault {
    ghost output = { λ fault. Some (sentence (delivery_refusal fault) (delivery_reason fault)) };

    fn fmt<W: fmt::Write>(&self, f: &mut fmt::Formatter<W>) -> fmt::Result {
        write_sentence(self, f)
    }
}
