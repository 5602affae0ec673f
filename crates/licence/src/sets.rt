// The sets that rules are made of: spans, sets of cards, and patterns of keys.
ghost use Rattle.std.specs.Prelude.{◌≡◌, Bool};
ghost use Rattle.std.specs.Ordering.{partial_le};
ghost use Rattle.licence.specs.Ranges.{forward, within};
ghost use Rattle.licence.specs.Patterns.{below_top, in_set, cared_for, matches};

// A set of cards or of keys.
pub trait Set<T> {
    ghost sound: { Self → Bool };

    ghost has: { Self → T → Bool };

    // May a rule be made of this set?
    fn is_sound(&self) -> bool
        ensures { result ≡ sound self.now };

    // Is this card or key in the set?
    fn has(&self, x: T) -> bool
        ensures { result ≡ has self.now x };
}

// The numbers from low to high, both counted.
#[derive(Clone, Copy)]
pub struct Span<T> {
    pub low: T,
    pub high: T,
}

// A span may not run backwards.
impl<T: PartialOrd + Copy> Set<T> for Span<T> {
    ghost sound = { forward (partial_le T.partial_cmp) };

    ghost has = { within (partial_le T.partial_cmp) };

    fn is_sound(&self) -> bool {
        self.low <= self.high
    }

    fn has(&self, x: T) -> bool {
        self.low <= x && x <= self.high
    }
}

// A set of cards as a word: bit c for card c.
pub type CardSet = u32;

// A set of cards has a bit for each card below this one.
const CARDS: u16 = 31;

// A set of cards may not have bit 31.
impl Set<u16> for CardSet {
    ghost sound = { below_top };

    ghost has = { in_set };

    fn is_sound(&self) -> bool {
        *self >> CARDS == 0
    }

    fn has(&self, card: u16) -> bool {
        card < CARDS && (*self >> card) % 2 == 1
    }
}

// The keys whose bits under `care` equal `value`.
#[derive(Clone, Copy)]
pub struct KeyPattern {
    pub value: u8,
    pub care: u8,
}

// The value may have no bit outside its care byte.
impl Set<u8> for KeyPattern {
    ghost sound = { cared_for };

    ghost has = { matches };

    fn is_sound(&self) -> bool {
        (self.value & self.care) == self.value
    }

    fn has(&self, key: u8) -> bool {
        (key & self.care) == self.value
    }
}
