// Why a line of the console is refused.
ghost use Rattle.std.specs.Prelude.{◌≡◌, Some};
ghost use Rattle.refusal.specs.Sentences.{sentence};
ghost use Rattle.session.specs.declared.fault.LineFault.TheVariants.{Tree as LineTree, Rule as LineRule, Packet as LinePacket, Fire as LineFire, Take as LineTake};
ghost use Rattle.session.specs.Faults.{line_refusal, line_reason};

use refusal::{
    Fault, FireFault, LicenceFault, PacketFault, Refusal, TakeFault, WiringFault, write_sentence,
};
use std::fmt;

// A line that is not understood, or the fault of what it asks for, held whole.
#[derive(Clone, Copy)]
pub enum LineFault {
    NotUnderstood,
    Tree(WiringFault),
    Rule(LicenceFault),
    Packet(PacketFault),
    Fire(FireFault),
    Take(TakeFault),
}

// The conversions are by hand: clauses name the fault that a `?` makes, and a derived `From` says nothing of it.
impl From<WiringFault> for LineFault {
    ghost from_gives = { λ f r. r ≡ LineTree f };

    fn from(fault: WiringFault) -> LineFault {
        LineFault::Tree(fault)
    }
}

impl From<LicenceFault> for LineFault {
    ghost from_gives = { λ f r. r ≡ LineRule f };

    fn from(fault: LicenceFault) -> LineFault {
        LineFault::Rule(fault)
    }
}

impl From<PacketFault> for LineFault {
    ghost from_gives = { λ f r. r ≡ LinePacket f };

    fn from(fault: PacketFault) -> LineFault {
        LineFault::Packet(fault)
    }
}

impl From<FireFault> for LineFault {
    ghost from_gives = { λ f r. r ≡ LineFire f };

    fn from(fault: FireFault) -> LineFault {
        LineFault::Fire(fault)
    }
}

impl From<TakeFault> for LineFault {
    ghost from_gives = { λ f r. r ≡ LineTake f };

    fn from(fault: TakeFault) -> LineFault {
        LineFault::Take(fault)
    }
}

impl Fault for LineFault {
    ghost refusal = { line_refusal };

    ghost reason = { line_reason };

    fn refusal(&self) -> Refusal {
        match *self {
            LineFault::NotUnderstood => Refusal::of(21),
            LineFault::Tree(fault) => fault.refusal(),
            LineFault::Rule(fault) => fault.refusal(),
            LineFault::Packet(fault) => fault.refusal(),
            LineFault::Fire(fault) => fault.refusal(),
            LineFault::Take(fault) => fault.refusal(),
        }
    }

    fn reason(&self) -> &'static str {
        match *self {
            LineFault::NotUnderstood => "the line is not understood",
            LineFault::Tree(fault) => fault.reason(),
            LineFault::Rule(fault) => fault.reason(),
            LineFault::Packet(fault) => fault.reason(),
            LineFault::Fire(fault) => fault.reason(),
            LineFault::Take(fault) => fault.reason(),
        }
    }
}

// The number, the place and the sentence, as the fault that is held prints them.
impl fmt::Display for LineFault {
    ghost output = { λ fault. Some (sentence (line_refusal fault) (line_reason fault)) };

    fn fmt<W: fmt::Write>(&self, f: &mut fmt::Formatter<W>) -> fmt::Result {
        write_sentence(self, f)
    }
}
