ghost use Rattle.std.specs.Prelude.{◌≡◌, ℕ, Bool, true};
ghost use Rattle.licence.specs.declared.verdict.Verdict.{Verdict};
ghost use Rattle.licence.specs.Verdicts.{known};

use crate::verdict::Verdict;

// A rule covers some cards and keys, and carries a verdict for them.
pub trait Rule {
    ghost covering: { Self → ℕ → ℕ → Bool };

    ghost ruling: { Self → Verdict };

    // Does the rule speak of this card and key?
    fn covers(&self, card: u16, key: u8) -> bool
        ensures { result ≡ covering self.now card key };

    // What the rule says where it covers.
    fn verdict(&self) -> Verdict
        ensures { result ≡ ruling self.now };

    ghost classed: { (s : Self) → known (ruling s) ≡ true };
}
