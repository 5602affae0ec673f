// A route read from its highest bit down.
ghost use Rattle.std.specs.Prelude.{◌≡◌, ◌-◌, ◌%◌, ◌^◌, ◌<◌, ◌≤◌};
ghost use Rattle.packet.specs.Routes.{ups_of, after_turn, route_bits, bits_from, read_route, ending_going_up, route_in, stopped};
ghost use Rattle.packet.specs.Courses.{sides_told, course_told};

use super::{Course, Route, Sides};

impl Route {
    // The route in the low nine bits of a word. The others are dropped, so this is no From.
    pub fn low(word: u32) -> Route
        ensures { result.bits ≡ route_in word }
    {
        Route {
            bits: (word % 512) as u16,
        }
    }

    // What the route asks for, or none where it ends on the way up.
    #[tactic(auto, unfolding(crate::specs::Routes::read_route, crate::specs::Routes::read_bits))]
    pub fn course(self) -> Option<Course>
        ensures { course_told result ≡ read_route self.bits }
    {
        let ups = self.ups();
        let sides = sides_before_stop(self.bits, 8u16.saturating_sub(ups))?;
        Some(Course { ups, sides })
    }

    // How many 1s stand before the first 0, the turn: the nine bits are moved to the top of sixteen.
    #[tactic(auto, using(crate::proofs::Reading::route_read), unfolding(crate::specs::Routes::route_bits))]
    fn ups(self) -> u16
        ensures value { result ≡ ups_of (route_bits self.bits) }
        ensures below { after_turn (route_bits self.bits) ≡ bits_from (8 - result) self.bits }
    {
        (self.bits << 7).leading_ones() as u16
    }
}

// The nine bits as a number.
impl From<Route> for u16 {
    ghost from_gives = { λ route bits. (bits ≡ route.bits) × (bits < 512) };

    fn from(route: Route) -> u16 {
        route.bits
    }
}

// Exactly ten of the 512 routes end on the way up.
pub fn routes_ending_going_up() -> [u16; 10]
    ensures { result ≡ ending_going_up 512 }
{
    [
        0x000, 0x100, 0x180, 0x1c0, 0x1e0, 0x1f0, 0x1f8, 0x1fc, 0x1fe, 0x1ff,
    ]
}

// The sides that the low k bits name before their last 1, if they have one.
#[tactic(auto, using(crate::proofs::Reading::stop_none, crate::proofs::Reading::stop_found))]
fn sides_before_stop(bits: u16, k: u16) -> Option<Sides>
    requires { k ≤ 8 }
    ensures { sides_told result ≡ stopped (bits_from k bits) }
{
    let low = bits % (1 << k);
    if low == 0 {
        return None;
    }
    let stop = low.trailing_zeros() as u16;
    Some(Sides {
        bits: low >> (stop + 1),
        count: k - 1 - stop,
    })
}
