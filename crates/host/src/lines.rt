// Range rules as a host writes them.
ghost use Rattle.std.specs.Prelude.{◌≡◌, List, map};
ghost use Rattle.licence.specs.Granted.{granted};
ghost use Rattle.licence.specs.Rules.{rule_in};
ghost use Rattle.host.specs.Lines.{verdict_of, rule_of_line, rules_stated, book_of_lines};
ghost use Rattle.rulebook.specs.Steps.{told};
ghost use Rattle.rulebook.specs.Rulebooks.{rules_meant};

use licence::{RangeRule, Span, Verdict};
use refusal::LicenceFault;
use rulebook::Rulebook;

// A rule for the cards and the keys from low to high, both counted; the verdict is a class, 0 to 3, or 255 for 'refuse'.
#[repr(C)]
#[derive(Clone, Copy)]
pub struct RuleLine {
    pub low_card: u16,
    pub high_card: u16,
    pub low_key: u8,
    pub high_key: u8,
    pub verdict: u8,
}

// The number that stands for 'refuse'.
const REFUSE: u8 = 255;

fn verdict_of(number: u8) -> Verdict
    ensures { result ≡ verdict_of number }
{
    if number == REFUSE {
        Verdict::Refuse
    } else {
        Verdict::Class(number)
    }
}

impl RuleLine {
    // The rule that the line states.
    fn rule(&self) -> Result<RangeRule, LicenceFault>
        ensures { granted rule_in result ≡ rule_of_line self.now }
    {
        let cards = Span {
            low: self.low_card,
            high: self.high_card,
        };
        let keys = Span {
            low: self.low_key,
            high: self.high_key,
        };
        RangeRule::new(cards, keys, verdict_of(self.verdict))
    }
}

// Whether each line states a rule. The first that does not decides.
fn check_lines(lines: &[RuleLine]) -> Result<(), LicenceFault>
    ensures { result ≡ told (rules_stated lines.now) }
{
    for line in lines {
        line.rule()?;
    }
    Ok(())
}

// The book of the rules that the lines state, in their order. Each of them is judged before their number is.
#[tactic(auto, using(crate::proofs::Adding::all_added))]
pub(crate) fn read_rules(lines: &[RuleLine]) -> Result<Rulebook, LicenceFault>
    ensures { granted rules_meant result ≡ book_of_lines lines.now }
{
    check_lines(lines)?;
    let mut book = Rulebook::new();
    for line in lines {
        book.add(line.rule()?)?;
    }
    Ok(book)
}
