// Answers as one number of 64 bits.
ghost use Rattle.std.specs.Prelude.{◌≡◌};
ghost use Rattle.host.specs.Told.{refused, told_by, done_by};

use refusal::{Fault, Refusal};

// Bits 32 to 39 hold the number of a refusal.
const NUMBER: u64 = 1 << 32;
// This bit is set where the refusal has a place.
const PLACED: u64 = 1 << 40;

// A refusal as a number.
pub(crate) fn refused(refusal: Refusal) -> u64
    ensures { result ≡ refused refusal }
{
    let number = NUMBER * u64::from(refusal.number);
    match refusal.place {
        None => number,
        Some(place) => PLACED + (number + u64::from(u32::try_from(place).unwrap_or(u32::MAX))),
    }
}

// What is granted, or the refusal.
pub(crate) fn told<F: Fault + Drop>(answer: Result<u32, F>) -> u64
    ensures { result ≡ told_by F.refusal answer }
{
    match answer {
        Ok(value) => u64::from(value),
        Err(fault) => refused(fault.refusal()),
    }
}

// Done, or the refusal.
pub(crate) fn done<F: Fault + Drop>(answer: Result<(), F>) -> u64
    ensures { result ≡ done_by F.refusal answer }
{
    match answer {
        Ok(()) => 0,
        Err(fault) => refused(fault.refusal()),
    }
}
