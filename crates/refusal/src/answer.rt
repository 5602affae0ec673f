// A refusal as a number and a place.
ghost use Rattle.std.specs.Prelude.{◌≡◌, Some};
ghost use Rattle.refusal.specs.Numbers.{numbered, placed, refusal_text};

use std::fmt;

// A refusal as it is answered: its number, and its place where it has one. The number, not an enum, is the product's answer to the host.
#[derive(Clone, Copy, PartialEq, Eq)]
pub struct Refusal {
    pub number: u8,
    pub place: Option<usize>,
}

impl Refusal {
    // A refusal with no place.
    pub fn of(number: u8) -> Refusal
        ensures { result ≡ numbered number }
    {
        Refusal {
            number,
            place: None,
        }
    }

    // A refusal that names a place.
    pub(crate) fn at(number: u8, place: usize) -> Refusal
        ensures { result ≡ placed number place }
    {
        Refusal {
            number,
            place: Some(place),
        }
    }
}

impl fmt::Display for Refusal {
    ghost output = { λ r. Some (refusal_text r) };

    fn fmt<W: fmt::Write>(&self, f: &mut fmt::Formatter<W>) -> fmt::Result {
        let number = self.number;
        match self.place {
            Some(place) => write!(f, "{number} at {place}"),
            None => write!(f, "{number}"),
        }
    }
}
