// Refusals of a sender: the packet's fault holds the route's whole.
ghost use Rattle.std.specs.Prelude.{◌≡◌, Some};
ghost use Rattle.refusal.specs.Sentences.{sentence, route_reason, packet_reason};
ghost use Rattle.refusal.specs.declared.send.PacketFault.TheVariants.{Route as PacketRoute};
ghost use Rattle.refusal.specs.Refusals.{route_refusal, packet_refusal};

use crate::answer::Refusal;
use crate::fault::{Fault, write_sentence};
use std::fmt;

// A route that cannot be walked.
#[derive(Clone, Copy)]
pub enum RouteFault {
    EndsGoingUp { card: u16 },
    AboveRoot,
    NoDaughter { card: u16 },
}

impl Fault for RouteFault {
    ghost refusal = { route_refusal };

    ghost reason = { route_reason };

    fn refusal(&self) -> Refusal {
        match *self {
            RouteFault::EndsGoingUp { card } => Refusal::at(9, usize::from(card)),
            RouteFault::AboveRoot => Refusal::at(10, 0),
            RouteFault::NoDaughter { card } => Refusal::at(11, usize::from(card)),
        }
    }

    fn reason(&self) -> &'static str {
        match *self {
            RouteFault::EndsGoingUp { .. } => "the route ends on the way up",
            RouteFault::AboveRoot => "the route climbs above card 0",
            RouteFault::NoDaughter { .. } => "the card lacks the daughter that the route needs",
        }
    }
}

impl fmt::Display for RouteFault {
    ghost output = { λ fault. Some (sentence (route_refusal fault) (route_reason fault)) };

    fn fmt<W: fmt::Write>(&self, f: &mut fmt::Formatter<W>) -> fmt::Result {
        write_sentence(self, f)
    }
}

// A packet that is not queued.
#[derive(Clone, Copy)]
pub enum PacketFault {
    NoSender,
    Length,
    Kinds { place: usize },
    Reserved { place: usize },
    Route(RouteFault),
    QueueFull,
}

// By hand, since a derived `From` says nothing that clauses can name.
impl From<RouteFault> for PacketFault {
    ghost from_gives = { λ f r. r ≡ PacketRoute f };

    fn from(fault: RouteFault) -> PacketFault {
        PacketFault::Route(fault)
    }
}

impl Fault for PacketFault {
    ghost refusal = { packet_refusal };

    ghost reason = { packet_reason };

    fn refusal(&self) -> Refusal {
        match *self {
            PacketFault::NoSender => Refusal::of(5),
            PacketFault::Length => Refusal::of(6),
            PacketFault::Kinds { place } => Refusal::at(7, place),
            PacketFault::Reserved { place } => Refusal::at(8, place),
            PacketFault::Route(fault) => fault.refusal(),
            PacketFault::QueueFull => Refusal::of(12),
        }
    }

    fn reason(&self) -> &'static str {
        match *self {
            PacketFault::NoSender => "there is no such card",
            PacketFault::Length => "a packet has 2 to 64 words",
            PacketFault::Kinds { .. } => "the word is of the wrong kind",
            PacketFault::Reserved { .. } => "the word has reserved bits set",
            PacketFault::Route(fault) => fault.reason(),
            PacketFault::QueueFull => "the queue has no room for the packet",
        }
    }
}

impl fmt::Display for PacketFault {
    ghost output = { λ fault. Some (sentence (packet_refusal fault) (packet_reason fault)) };

    fn fmt<W: fmt::Write>(&self, f: &mut fmt::Formatter<W>) -> fmt::Result {
        write_sentence(self, f)
    }
}
