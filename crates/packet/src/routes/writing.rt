// A route written for what it is to ask for.
ghost use Rattle.std.specs.Prelude.{◌≡◌, ◌<◌, [], length, Some, IfSome};
ghost use Rattle.packet.specs.Routes.{write_route, read_route};
ghost use Rattle.packet.specs.Courses.{sides_in, sides_told, sides_before, split_sides, split_told, course_of, route_told};

use super::{Course, Route, Sides};
use crate::sides::Side;
use crate::words::bit;

impl Sides {
    // No descent at all.
    #[tactic(auto, unfolding(crate::specs::Routes::bits_from))]
    pub fn none() -> Sides
        ensures { sides_in result ≡ [] }
    {
        Sides { bits: 0, count: 0 }
    }

    // How many descents.
    #[tactic(auto, using(crate::proofs::Writing::sides_length))]
    pub fn count(self) -> u16
        ensures { result ≡ length (sides_in self) }
    {
        self.count
    }

    // The first side and the others, or none where there is none.
    #[tactic(auto, using(crate::proofs::Writing::split_none, crate::proofs::Writing::split_some))]
    pub fn split_first(self) -> Option<(Side, Sides)>
        ensures { split_told result ≡ split_sides (sides_in self) }
    {
        if self.count == 0 {
            return None;
        }
        let count = self.count - 1;
        let rest = Sides {
            bits: self.bits % (1 << count),
            count,
        };
        let first = bit(u32::from(count), u32::from(self.bits));
        Some((Side::from(first), rest))
    }

    // These sides after another one, or none where a route has no bit for it.
    #[tactic(auto, using(crate::proofs::Writing::side_in_front))]
    pub fn after(self, side: Side) -> Option<Sides>
        ensures { sides_told result ≡ sides_before side (sides_in self) }
    {
        if self.count >= 7 {
            return None;
        }
        let bits = match side {
            Side::Left => self.bits,
            Side::Right => self.bits + (1 << self.count),
        };
        Some(Sides {
            bits,
            count: self.count + 1,
        })
    }
}

impl Course {
    // The route that asks for this, or none where its nine bits do not suffice.
    #[tactic(auto, using(crate::proofs::Writing::route_summed))]
    pub fn route(self) -> Option<Route>
        ensures value { route_told result ≡ write_route (course_of self) }
        ensures nine { IfSome result (λ r. r.bits < 512) }
        ensures back { IfSome result (λ r. read_route r.bits ≡ Some (course_of self)) }
    {
        let Course { ups, sides } = self;
        if ups > 7 || sides.count > 7 - ups {
            return None;
        }
        let climb = 512 - (512 >> ups);
        let down = (2 * sides.bits + 1) << (7 - ups - sides.count);
        Some(Route { bits: climb + down })
    }
}
