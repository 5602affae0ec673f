// Making a rulebook, adding to it, and asking it.
ghost use Rattle.std.specs.Prelude.{◌≡◌, []};
ghost use Rattle.licence.specs.Books.{rules_in};
ghost use Rattle.rulebook.specs.Steps.{told, kept};
ghost use Rattle.rulebook.specs.Rulebooks.{one_more, ruled};
ghost use Rattle.rulebook.specs.Ruled.{ruled_known};

use super::{RULES, Rulebook};
use licence::{Book, Policy, RangeRule, Span, Verdict};
use refusal::LicenceFault;

impl Rulebook {
    // A rulebook without rules. The filling is a rule that is never asked.
    pub fn new() -> Rulebook
        ensures { result ≡ [] }
    {
        let cards = Span { low: 0, high: 0 };
        let keys = Span { low: 0, high: 0 };
        let filling = RangeRule::new(cards, keys, Verdict::Refuse).unwrap();
        Rulebook {
            rules: [filling; RULES],
            count: 0,
        }
    }

    // Adds a rule behind the others. Where 64 stand already it is refused, and not kept.
    pub fn add(&mut self, rule: RangeRule) -> Result<(), LicenceFault>
        ensures answer { result ≡ told (one_more self.old rule) }
        ensures next { self.new ≡ kept self.old (one_more self.old rule) }
    {
        if self.count == RULES {
            return Err(LicenceFault::TooManyRules);
        }
        self.rules[self.count] = rule;
        self.count += 1;
        Ok(())
    }

    // The book of the rules.
    fn book(&self) -> Book<'_, RangeRule>
        ensures { rules_in result ≡ self.now }
    {
        Book::new(&self.rules[..self.count]).unwrap()
    }
}

// The verdict is that of the book of its rules.
impl Policy for Rulebook {
    ghost verdict = { ruled };

    ghost classed = { ruled_known };

    fn ask(&self, card: u16, key: u8) -> Verdict {
        self.book().ask(card, key)
    }
}
