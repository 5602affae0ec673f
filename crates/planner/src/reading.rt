// Fields of one kind, read to the end of a line.
ghost use Rattle.text.specs.Fields.{fields_left};
ghost use Rattle.planner.specs.Lines.{entry_of, read_all};
ghost use Rattle.planner.specs.Read.{AllRead};

use crate::faults::PlanFault;
use std::alloc::{AllocError, Global};
use text::{Fields, Spelling, decimal};

// An entry of a table. A table has 255 for none.
#[derive(Clone, Copy)]
pub(crate) struct Entry;

impl Spelling for Entry {
    type Value = u8;

    ghost spells = { entry_of };

    fn read(field: &[u8]) -> Option<u8> {
        match field {
            b"-" => Some(255),
            _ => u8::try_from(decimal(field)?).ok(),
        }
    }
}

// Every field that is left, each read alike.
pub(crate) fn read_all<S: Spelling>(
    heap: Global,
    fields: Fields,
) -> Result<Vec<S::Value>, PlanFault>
    ensures { AllRead (read_all S.spells (fields_left fields.entry)) result }
{
    let mut values = Vec::new(heap);
    for field in fields {
        let value = S::read(field).ok_or(PlanFault::NotUnderstood)?;
        values.push(value).map_err(AllocError::from)?;
    }
    Ok(values)
}
