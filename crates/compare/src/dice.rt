// Random numbers from a fixed seed, so that each run is the same run each time.
ghost use Rattle.std.specs.Prelude.{◌<◌};

use rand_core::{Rng, SeedableRng};
use rand_xoshiro::Xoshiro256PlusPlus;

#[derive(Drop)]
pub struct Dice {
    rng: Xoshiro256PlusPlus,
}

impl Dice {
    pub(crate) fn new(seed: u64) -> Dice {
        Dice {
            rng: Xoshiro256PlusPlus::seed_from_u64(seed),
        }
    }

    pub(crate) fn word(&mut self) -> u32 {
        self.rng.next_u32()
    }

    // A number below this one; 0 where there is none.
    pub(crate) fn below(&mut self, count: u32) -> u32
        ensures { 0 < count → result < count }
    {
        if count == 0 {
            return 0;
        }
        self.rng.next_u32() % count
    }

    // A number from low to high.
    pub(crate) fn between(&mut self, low: u32, high: u32) -> u32 {
        let count = high.saturating_sub(low).saturating_add(1);
        low.saturating_add(self.below(count))
    }

    // A card number below this one.
    pub(crate) fn card(&mut self, cards: u16) -> u16 {
        (self.below(u32::from(cards)) & 0xffff) as u16
    }

    pub(crate) fn byte(&mut self) -> u8 {
        (self.rng.next_u32() & 0xff) as u8
    }

    pub(crate) fn one_in(&mut self, count: u32) -> bool {
        self.below(count) == 0
    }
}
