ghost use Rattle.std.specs.Prelude.{◌≡◌};
ghost use Rattle.licence.specs.Books.{book_of, rules_in, first_of, Decided};
ghost use Rattle.licence.specs.Granted.{granted};
ghost use Rattle.licence.specs.Known.{first_known};

use crate::policy::Policy;
use crate::rule::Rule;
use crate::verdict::Verdict;
use refusal::LicenceFault;

// The most rules that a book may have.
const RULES: usize = 64;

// A list of rules of one kind, in which the first that covers a card and key decides.
#[derive(Drop)]
pub struct Book<'a, R> {
    rules: &'a [R],
}

impl<'a, R: Rule> Book<'a, R> {
    // Refused are more than 64 rules.
    pub fn new(rules: &'a [R]) -> Result<Book<'a, R>, LicenceFault>
        ensures { granted rules_in result ≡ book_of rules.now }
    {
        if rules.len() > RULES {
            return Err(LicenceFault::TooManyRules);
        }
        Ok(Book { rules })
    }
}

impl<'a, R: Rule> Policy for Book<'a, R> {
    ghost verdict = { λ s card key. first_of R.covering R.ruling (rules_in s) card key };

    ghost classed = { λ s. first_known R.covering R.ruling R.classed (rules_in s) };

    fn ask(&self, card: u16, key: u8) -> Verdict
        ensures meaning { result ≡ first_of R.covering R.ruling (rules_in self.now) card key }
        ensures decided { Decided R.covering R.ruling (rules_in self.now) card key result }
    {
        self.rules
            .iter()
            .find(|rule| rule.covers(card, key))
            .map_or(Verdict::Refuse, |rule| rule.verdict())
    }
}
