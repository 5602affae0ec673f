// The two sides of a card.
ghost use Rattle.std.specs.Prelude.{◌≡◌, Some};
ghost use Rattle.packet.specs.Routes.{side_of, side_letter};

use std::fmt;

// A daughter is her parent's left or right one.
#[derive(Clone, Copy, PartialEq, Eq)]
pub enum Side {
    Left,
    Right,
}

impl fmt::Display for Side {
    ghost output = { λ side. Some (side_letter side) };

    fn fmt<W: fmt::Write>(&self, f: &mut fmt::Formatter<W>) -> fmt::Result {
        f.write_str(match self {
            Side::Left => "L",
            Side::Right => "R",
        })
    }
}

// Of a bit, 0 is left and 1 is right.
impl From<bool> for Side {
    ghost from_gives = { λ bit side. side ≡ side_of bit };

    fn from(bit: bool) -> Side {
        if bit { Side::Right } else { Side::Left }
    }
}
