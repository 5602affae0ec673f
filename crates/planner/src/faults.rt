// Why a line of a planning deck is refused.
ghost use Rattle.std.specs.Prelude.{◌≡◌, Some, None};
ghost use Rattle.planner.specs.declared.faults.PlanFault.TheVariants.{Wiring as PlanWiring, Order as PlanOrder, Memory as PlanMemory};
ghost use Rattle.planner.specs.Answers.{plan_refusal};
ghost use Rattle.planner.specs.Texts.{fault_text};

use refusal::{Fault, OrderFault, Refusal, WiringFault};
use std::alloc::AllocError;
use std::fmt;

// A line that is not understood, a wiring or a route that is refused, or no memory for the line.
#[derive(Clone, Copy)]
pub enum PlanFault {
    NotUnderstood,
    Wiring(WiringFault),
    Order(OrderFault),
    Memory,
}

// The conversions are by hand: clauses name the fault that a `?` makes, and a derived `From` says nothing of it.
impl From<WiringFault> for PlanFault {
    ghost from_gives = { λ f r. r ≡ PlanWiring f };

    fn from(fault: WiringFault) -> PlanFault {
        PlanFault::Wiring(fault)
    }
}

impl From<OrderFault> for PlanFault {
    ghost from_gives = { λ f r. r ≡ PlanOrder f };

    fn from(fault: OrderFault) -> PlanFault {
        PlanFault::Order(fault)
    }
}

impl From<AllocError> for PlanFault {
    ghost from_gives = { λ f r. r ≡ PlanMemory };

    fn from(_: AllocError) -> PlanFault {
        PlanFault::Memory
    }
}

impl PlanFault {
    // The number of the refusal; want of memory has none.
    pub fn refusal(&self) -> Option<Refusal>
        ensures { result ≡ plan_refusal self.now }
    {
        match *self {
            PlanFault::NotUnderstood => Some(Refusal::of(21)),
            PlanFault::Wiring(fault) => Some(fault.refusal()),
            PlanFault::Order(fault) => Some(fault.refusal()),
            PlanFault::Memory => None,
        }
    }
}

// By hand, since `thiserror` would ask `Debug` of the faults that it holds.
impl fmt::Display for PlanFault {
    ghost output = { λ fault. Some (fault_text fault) };

    fn fmt<W: fmt::Write>(&self, f: &mut fmt::Formatter<W>) -> fmt::Result {
        match *self {
            PlanFault::NotUnderstood => write!(f, "21: the line is not understood"),
            PlanFault::Wiring(fault) => write!(f, "{fault}"),
            PlanFault::Order(fault) => write!(f, "{fault}"),
            PlanFault::Memory => write!(f, "there is no memory for the line"),
        }
    }
}
