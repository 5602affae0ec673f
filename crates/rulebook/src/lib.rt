// A book that owns its rules: at most 64 range rules, in fixed memory.
#![tactic(auto)]

mod rulebook;

pub use rulebook::Rulebook;
