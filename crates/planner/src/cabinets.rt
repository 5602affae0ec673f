// The wiring that a deck states: a full tree, or the tree that a table lists.
ghost use Rattle.planner.specs.Cabinets.{cabinet_told, FrameAnswered};
ghost use Rattle.text.specs.Fields.{fields_left};
ghost use Rattle.planner.specs.Lines.{entry_of, read_all, tree_of, tabled, frame_line};

use crate::faults::PlanFault;
use crate::reading::{Entry, read_all};
use std::alloc::Global;
use text::{Decimal, Fields};
use wiring::{Cabinet, FullTree, WiredTree};

// `tree` and the number of levels.
fn full_tree(mut fields: Fields) -> Result<Cabinet, PlanFault>
    ensures { FrameAnswered (tree_of (fields_left fields.entry)) (cabinet_told result) }
{
    let levels = fields.read::<Decimal>().ok_or(PlanFault::NotUnderstood)?;
    if !fields.is_done() {
        return Err(PlanFault::NotUnderstood);
    }
    Ok(Cabinet::Full(FullTree::new(levels)?))
}

// `wires` and the entries of the table.
fn wired_tree(heap: Global, fields: Fields) -> Result<Cabinet, PlanFault>
    ensures { FrameAnswered (tabled (read_all entry_of (fields_left fields.entry))) (cabinet_told result) }
{
    let table = read_all::<Entry>(heap, fields)?;
    Ok(Cabinet::Wired(WiredTree::new(&table)?))
}

// The wiring that a line states.
pub fn read_wiring(heap: Global, line: &[u8]) -> Result<Cabinet, PlanFault>
    ensures { FrameAnswered (frame_line line.now) (cabinet_told result) }
{
    let mut fields = Fields::new(line);
    match fields.next() {
        Some(b"tree") => full_tree(fields),
        Some(b"wires") => wired_tree(heap, fields),
        _ => Err(PlanFault::NotUnderstood),
    }
}
