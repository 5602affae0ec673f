// The number of a card.
ghost use Rattle.std.specs.Prelude.{◌≡◌, ℕ, ◌<◌};

use std::marker::Model;

// No tree has more than 31 cards.
#[derive(Clone, Copy)]
pub struct CardId {
    number: u16,
}

// Clauses see the number.
impl Model for CardId {
    ghost Value = { ℕ };

    ghost view = { λ c. c.number };

    ghost invariant = { λ c. c.number < 31 };

    ghost inverse = { λ n. record { number = n } };
}

impl CardId {
    // No test: who calls it knows by the laws of a wiring that a card's number is below 31.
    #[inline(always)]
    pub fn new(number: u16) -> CardId
        requires { number < 31 }
        ensures { result ≡ number }
    {
        CardId { number }
    }

    pub fn number(self) -> u16
        ensures { result ≡ self }
    {
        self.number
    }

    // Its place in a table of 31 cards.
    pub fn index(self) -> usize
        ensures place { result ≡ self }
        ensures inside { result < 31 }
    {
        usize::from(self.number)
    }
}
