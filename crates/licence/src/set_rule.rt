// Rules for the cards of one set and the keys of another.
ghost use Rattle.std.specs.Prelude.{◌≡◌};
ghost use Rattle.licence.specs.Granted.{granted};
ghost use Rattle.licence.specs.Rules.{rule_of, rule_in, rule_covers, rule_carries};
ghost use Rattle.licence.specs.Ranges.{range_of};
ghost use Rattle.licence.specs.Patterns.{pattern_of};
ghost use Rattle.std.proofs.Common.{rules};

use crate::rule::Rule;
use crate::sets::{CardSet, KeyPattern, Set, Span};
use crate::verdict::{Carried, Verdict};
use refusal::LicenceFault;

// A rule for the cards of one set and the keys of another.
#[derive(Clone, Copy)]
pub struct SetRule<C, K> {
    cards: C,
    keys: K,
    carried: Carried,
}

// A rule for a span of cards and a span of keys.
pub type RangeRule = SetRule<Span<u16>, Span<u8>>;

// A rule for a set of cards and a pattern of keys.
pub type PatternRule = SetRule<CardSet, KeyPattern>;

impl<C: Set<u16> + Drop, K: Set<u8> + Drop> SetRule<C, K> {
    // Refused are a set of which no rule may be made, and a class that there is not.
    pub fn of(cards: C, keys: K, verdict: Verdict) -> Result<SetRule<C, K>, LicenceFault>
        ensures { granted rule_in result ≡ rule_of C.sound K.sound cards keys verdict }
    {
        if !cards.is_sound() || !keys.is_sound() || !verdict.is_known() {
            return Err(LicenceFault::BadRule);
        }
        Ok(SetRule {
            cards,
            keys,
            carried: Carried { verdict },
        })
    }
}

impl SetRule<Span<u16>, Span<u8>> {
    // Refused are a span that runs backwards and a class that there is not.
    pub fn new(
        cards: Span<u16>,
        keys: Span<u8>,
        verdict: Verdict,
    ) -> Result<RangeRule, LicenceFault>
        ensures { granted rule_in result ≡ range_of cards keys verdict }
    {
        RangeRule::of(cards, keys, verdict)
    }
}

impl SetRule<CardSet, KeyPattern> {
    // Refused are a set with bit 31, a value with bits outside its care byte, and a class that there is not.
    pub fn new(
        cards: CardSet,
        keys: KeyPattern,
        verdict: Verdict,
    ) -> Result<PatternRule, LicenceFault>
        ensures { granted rule_in result ≡ pattern_of cards keys verdict }
    {
        PatternRule::of(cards, keys, verdict)
    }
}

impl<C: Set<u16>, K: Set<u8>> Rule for SetRule<C, K> {
    ghost covering = { rule_covers C.has K.has };

    ghost ruling = { rule_carries };

    ghost classed = { Prim.search rules };

    fn covers(&self, card: u16, key: u8) -> bool {
        self.cards.has(card) && self.keys.has(key)
    }

    fn verdict(&self) -> Verdict {
        self.carried.verdict
    }
}
