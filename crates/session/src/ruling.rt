// The rule that a line states.
ghost use Rattle.std.specs.Prelude.{◌≡◌};
ghost use Rattle.licence.specs.Granted.{granted};
ghost use Rattle.licence.specs.Rules.{rule_in};
ghost use Rattle.licence.specs.Ranges.{range_of};
ghost use Rattle.session.specs.Desks.{carried};
ghost use Rattle.rulebook.specs.Rulebooks.{rules_meant, with_rule};
ghost use Rattle.rulebook.specs.Steps.{told, kept};

use licence::{RangeRule, Span, Verdict};
use refusal::LicenceFault;
use rulebook::Rulebook;

// The rule. The class is checked before it is narrowed to a byte: 256 is no class.
fn range_rule(
    cards: Span<u16>,
    keys: Span<u8>,
    class: Option<u16>,
) -> Result<RangeRule, LicenceFault>
    ensures { granted rule_in result ≡ range_of cards keys (carried class) }
{
    let verdict = match class {
        None => Verdict::Refuse,
        Some(class) => Verdict::Class(u8::try_from(class).map_err(|_| LicenceFault::BadRule)?),
    };
    RangeRule::new(cards, keys, verdict)
}

// Adds the rule that a line states, if there is such a rule and room for it.
pub(crate) fn add_rule(
    rules: &mut Rulebook,
    cards: Span<u16>,
    keys: Span<u8>,
    class: Option<u16>,
) -> Result<(), LicenceFault>
    ensures answer { result ≡ told (with_rule (rules_meant rules.old) (range_of cards keys (carried class))) }
    ensures next { rules_meant rules.new ≡ kept (rules_meant rules.old) (with_rule (rules_meant rules.old) (range_of cards keys (carried class))) }
{
    rules.add(range_rule(cards, keys, class)?)
}
