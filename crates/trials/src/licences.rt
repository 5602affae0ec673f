// Rules, books and layers.
ghost use Rattle.std.specs.Prelude.{◌≡◌};
ghost use Rattle.licence.specs.Rules.{rule_in};
ghost use Rattle.licence.specs.Ranges.{in_range};
ghost use Rattle.licence.specs.Patterns.{in_pattern};
ghost use Rattle.licence.specs.declared.verdict.Verdict.TheVariants.{Refuse};

use crate::answers::number_of;
use licence::{Book, KeyPattern, PatternRule, Policy, RangeRule, Rule, Span, Verdict, Withdrawal};
use refusal::LicenceFault;
use std::test::Fail;

// Does the policy answer each card and key with this verdict?
fn answers<P: Policy>(policy: &P, cases: &[(u16, u8, Verdict)]) -> bool {
    cases
        .iter()
        .all(|(card, key, verdict)| policy.ask(*card, *key) == *verdict)
}

fn range(
    low: u16,
    high: u16,
    from: u8,
    to: u8,
    verdict: Verdict,
) -> Result<RangeRule, LicenceFault> {
    RangeRule::new(
        Span { low, high },
        Span {
            low: from,
            high: to,
        },
        verdict,
    )
}

fn pattern(cards: u32, value: u8, care: u8, verdict: Verdict) -> Result<PatternRule, LicenceFault> {
    PatternRule::new(cards, KeyPattern { value, care }, verdict)
}

// At the numbers of cards and keys a span's own order is that of the numbers.
fn range_covers(rule: &RangeRule, card: u16, key: u8) -> bool
    ensures { result ≡ in_range (rule_in rule.now) card key }
{
    rule.covers(card, key)
}

fn pattern_covers(rule: &PatternRule, card: u16, key: u8) -> bool
    ensures { result ≡ in_pattern (rule_in rule.now) card key }
{
    rule.covers(card, key)
}

// Of a layer that is only lent a caller knows, too, that the key is refused from now on.
fn withdrawn<P: Policy>(layer: &mut Withdrawal<P>, card: u16, key: u8) -> Verdict
    ensures { result ≡ Refuse }
{
    layer.withdraw(key);
    layer.ask(card, key)
}

#[test]
fn a_pattern_with_bits_not_cared_for_is_refused(rt: HostRuntime) {
    assert_eq!(rt;
        number_of(pattern(1, 0x12, 0x10, Verdict::Class(1))),
        Some(3)
    );
}

#[test]
fn a_rule_covers_both_of_its_sets(rt: HostRuntime) -> Result<(), Fail> {
    let Ok(spans) = range(1, 2, 0x11, 0x12, Verdict::Refuse) else {
        return Err(Fail::new("the range rule is refused"));
    };
    assert!(rt; range_covers(&spans, 1, 0x11) && range_covers(&spans, 2, 0x12));
    assert!(rt; !range_covers(&spans, 3, 0x11) && !range_covers(&spans, 2, 0x10));
    let Ok(bits) = pattern(0x5, 0x01, 0x03, Verdict::Refuse) else {
        return Err(Fail::new("the pattern rule is refused"));
    };
    assert!(rt; pattern_covers(&bits, 0, 0x01) && pattern_covers(&bits, 2, 0x05));
    assert!(rt; !pattern_covers(&bits, 1, 0x01) && !pattern_covers(&bits, 2, 0x03));
    Ok(())
}

#[test]
fn the_first_covering_rule_decides(rt: HostRuntime) -> Result<(), Fail> {
    let Ok(narrow) = range(1, 2, 0x11, 0x11, Verdict::Refuse) else {
        return Err(Fail::new("the first rule is refused"));
    };
    let Ok(wide) = range(0, 2, 0x10, 0x1f, Verdict::Class(2)) else {
        return Err(Fail::new("the second rule is refused"));
    };
    let rules = [narrow, wide];
    let Ok(book) = Book::new(&rules) else {
        return Err(Fail::new("the book is refused"));
    };
    assert!(rt;
        answers(
            &book,
            &[
                (1, 0x11, Verdict::Refuse),
                (0, 0x11, Verdict::Class(2)),
                (2, 0x1f, Verdict::Class(2)),
                (3, 0x1f, Verdict::Refuse)
            ],
        )
    );
    Ok(())
}

#[test]
fn layers_stack_over_a_book(rt: HostRuntime) -> Result<(), Fail> {
    let Ok(odd) = pattern(0x4000_0005, 0x01, 0x01, Verdict::Class(3)) else {
        return Err(Fail::new("the rule is refused"));
    };
    let rules = [odd];
    let Ok(book) = Book::new(&rules) else {
        return Err(Fail::new("the book is refused"));
    };
    let mut below = Withdrawal::over(book);
    below.withdraw(0x07);
    let mut layers = Withdrawal::over(below);
    layers.withdraw(0x09);
    assert!(rt;
        answers(
            &layers,
            &[
                (30, 0x05, Verdict::Class(3)),
                (1, 0x05, Verdict::Refuse),
                (31, 0x05, Verdict::Refuse),
                (2, 0x07, Verdict::Refuse),
                (2, 0x09, Verdict::Refuse),
            ],
        )
    );
    layers.restore(0x09);
    assert!(rt;
        answers(
            &layers,
            &[(2, 0x07, Verdict::Refuse), (2, 0x09, Verdict::Class(3))]
        )
    );
    assert!(rt; withdrawn(&mut layers, 0, 0x05) == Verdict::Refuse);
    Ok(())
}
