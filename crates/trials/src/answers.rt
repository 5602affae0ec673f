// What the tests ask of an answer.
use refusal::{Fault, Refusal};

// The refusal, or none where it is granted.
pub(crate) fn refused<T: Drop, F: Fault + Drop>(answer: Result<T, F>) -> Option<Refusal> {
    Some(answer.err()?.into())
}

// A refusal of this number, at this place if it has one.
pub(crate) fn by(number: u8, place: Option<usize>) -> Refusal {
    Refusal { number, place }
}

// The number alone.
pub(crate) fn number_of<T: Drop, F: Fault + Drop>(answer: Result<T, F>) -> Option<u8> {
    Some(answer.err()?.refusal().number)
}
