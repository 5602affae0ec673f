// Who may keep which flooding packets: verdicts, rules, the book and the withdrawal layer.
#![tactic(auto)]

mod books;
mod layer;
mod policy;
mod rule;
mod set_rule;
mod sets;
mod verdict;

pub use books::Book;
pub use layer::Withdrawal;
pub use policy::Policy;
pub use rule::Rule;
pub use set_rule::{PatternRule, RangeRule, SetRule};
pub use sets::{CardSet, KeyPattern, Set, Span};
pub use verdict::Verdict;
