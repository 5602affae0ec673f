// The router's policies for the simulator's lists of rules and withdrawn keys.
use crate::sim::{Rule, Scope};
use crate::troubles::Trouble;
use licence::{KeyPattern, PatternRule, Policy, RangeRule, Span, Verdict, Withdrawal};
use std::alloc::Global;

pub(crate) fn range_rules(heap: Global, listed: &[Rule]) -> Result<Vec<RangeRule>, Trouble> {
    let mut rules = Vec::new(heap);
    for rule in listed {
        if let Scope::Range {
            cards: (first, last),
            keys: (low, high),
        } = rule.scope
        {
            let cards = Span {
                low: first,
                high: last,
            };
            let keys = Span { low, high };
            match RangeRule::new(cards, keys, verdict(rule.class)) {
                Ok(rule) => rules.push(rule)?,
                Err(_) => return Err(Trouble::Setup("a range rule is refused")),
            }
        }
    }
    Ok(rules)
}

pub(crate) fn pattern_rules(heap: Global, listed: &[Rule]) -> Result<Vec<PatternRule>, Trouble> {
    let mut rules = Vec::new(heap);
    for rule in listed {
        if let Scope::Pattern { set, value, care } = rule.scope {
            match PatternRule::new(set, KeyPattern { value, care }, verdict(rule.class)) {
                Ok(rule) => rules.push(rule)?,
                Err(_) => return Err(Trouble::Setup("a pattern rule is refused")),
            }
        }
    }
    Ok(rules)
}

fn verdict(class: Option<u8>) -> Verdict {
    match class {
        Some(class) => Verdict::Class(class),
        None => Verdict::Refuse,
    }
}

// A layer over a policy, with these keys withdrawn.
pub(crate) fn withdrawn<P: Policy + Drop>(policy: P, keys: &[u8]) -> Withdrawal<P> {
    let mut layer = Withdrawal::over(policy);
    for key in keys {
        layer.withdraw(*key);
    }
    layer
}
