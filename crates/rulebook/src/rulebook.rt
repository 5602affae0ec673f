// Range rules, at most 64 and in fixed memory.
ghost use Rattle.std.specs.Prelude.{◌≤◌, List, take};
ghost use Rattle.rulebook.specs.Rulebooks.{RangeRule};

pub(crate) mod rules;

use licence::RangeRule;
use std::marker::Model;

// The most rules that are kept.
pub(crate) const RULES: usize = 64;

// The places from `count` on hold nothing that counts.
#[derive(Drop)]
pub struct Rulebook {
    rules: [RangeRule; RULES],
    count: usize,
}

// Clauses see the rules, in the order in which they were added.
impl Model for Rulebook {
    ghost Value = { List RangeRule };

    ghost view = { λ b. take b.count b.rules };

    ghost invariant = { λ b. b.count ≤ 64 };
}
