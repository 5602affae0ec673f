ghost use Rattle.std.specs.Prelude.{◌≡◌, ℕ, true};
ghost use Rattle.licence.specs.declared.verdict.Verdict.{Verdict};
ghost use Rattle.licence.specs.Verdicts.{known};

use crate::verdict::Verdict;

// Who may keep what: a verdict for each card number and key.
pub trait Policy {
    ghost verdict: { Self → ℕ → ℕ → Verdict };

    // The verdict for this card and key. Asking changes nothing.
    fn ask(&self, card: u16, key: u8) -> Verdict
        ensures { result ≡ verdict self.now card key };

    ghost classed: { (s : Self) (card key : ℕ) → known (verdict s card key) ≡ true };
}
