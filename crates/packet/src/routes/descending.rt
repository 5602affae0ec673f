// A way down, side by side.
ghost use Rattle.std.specs.Prelude.{◌≡◌};
ghost use Rattle.std.specs.Iterator.{YieldsFirst, item_count};
ghost use Rattle.packet.specs.Courses.{sides_in};

use super::Sides;
use crate::sides::Side;

// The sides that are still to come.
#[derive(Drop)]
pub struct Descents(Sides);

impl Iterator for Descents {
    type Item = Side;

    ghost next_gives = { YieldsFirst (λ s. sides_in s.0) };

    ghost remaining = { item_count (λ s. sides_in s.0) };

    fn next(&mut self) -> Option<Side> {
        let (side, rest) = self.0.split_first()?;
        self.0 = rest;
        Some(side)
    }
}

impl IntoIterator for Sides {
    type Item = Side;

    type IntoIter = Descents;

    ghost into_iter_gives = { λ s r. sides_in r.0 ≡ sides_in s };

    fn into_iter(self) -> Descents {
        Descents(self)
    }
}
