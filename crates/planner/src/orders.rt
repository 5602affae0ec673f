// An order line, read and planned.
ghost use Rattle.std.specs.Prelude.{◌≡◌};
ghost use Rattle.planner.specs.Answers.{OrderAnswered};

use crate::faults::PlanFault;
use crate::plans::{Plan, plan_order};
use crate::reading::read_all;
use std::alloc::Global;
use text::{Decimal, Fields};
use wiring::Wiring;

// The plan of the order that a line states: the sender, then the cards.
pub fn answer_order<W: Wiring>(heap: Global, wiring: &W, line: &[u8]) -> Result<Plan, PlanFault>
    ensures { OrderAnswered (W.shape wiring.now) line.now result }
{
    let mut fields = Fields::new(line);
    let sender = fields.read::<Decimal>().ok_or(PlanFault::NotUnderstood)?;
    let cards = read_all::<Decimal>(heap, fields)?;
    Ok(plan_order(wiring, sender, &cards)?)
}
