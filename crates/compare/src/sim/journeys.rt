// Where a route leads: its nine bits read at once, by their count of leading ones and what follows.
use super::families::Family;
use super::simulators::No;

// So many links up, so many down, and the card at the stop.
#[derive(Clone, Copy)]
pub struct Journey {
    pub ups: u64,
    pub descents: u64,
    pub terminus: u16,
}

// How many ones the nine bits begin with.
fn leading_ones(route: u32) -> u32 {
    let mut ones = 0u32;
    for place in 0..9u32 {
        if (route << place) & 0x100 == 0 {
            return ones;
        }
        ones = ones.saturating_add(1);
    }
    ones
}

impl Family {
    // The way from a card by a route, or the first fault: 9, 10 or 11.
    pub(crate) fn journey(&self, sender: u16, route: u32) -> Result<Journey, No> {
        let ups = leading_ones(route).min(9);
        if (route << ups) & 0x1ff == 0 {
            return Err(No::at(9, usize::from(sender)));
        }
        let mut terminus = sender;
        for _ in 0..ups {
            terminus = self.parent(terminus).ok_or(No::at(10, 0))?;
        }
        let mut sides = (route << ups << 1) & 0x1ff;
        let mut descents = 0u64;
        for _ in 0..9 {
            if sides & 0xff == 0 {
                break;
            }
            let daughters = self.daughters(terminus);
            let daughter = if sides & 0x100 == 0 {
                daughters.left
            } else {
                daughters.right
            };
            terminus = daughter.ok_or(No::at(11, usize::from(terminus)))?;
            descents = descents.saturating_add(1);
            sides = (sides << 1) & 0x1ff;
        }
        Ok(Journey {
            ups: u64::from(ups),
            descents,
            terminus,
        })
    }
}
