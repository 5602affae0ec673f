// A table read: the links of the cards that it lists.
ghost use Rattle.std.specs.Prelude.{◌≡◌, ◌<◌, ◌≤◌, ◌↔◌, IsTrue, length, replicate, OnOk, IfErr};
ghost use Rattle.wiring.specs.Tables.{Sized, Sound, IsTreeOf, listed_cards, listed_by};
ghost use Rattle.wiring.specs.Linked.{unlinked, linked_shape, MayStand, IsLinked, AllHaveParents};

use super::Links;
use packet::Side;
use refusal::WiringFault;

// The card that an entry names; 255 names none.
fn named(entry: u8) -> Option<u16>
    ensures { result ≡ listed_by entry }
{
    (entry != 255).then_some(u16::from(entry))
}

// Gives a card its daughter on this side, or none. A daughter is a card with a higher number that has no parent yet.
fn link(
    cards: &mut [Links],
    card: u16,
    side: Side,
    daughter: Option<u16>,
) -> Result<(), WiringFault>
    requires { card < length cards.old }
    ensures ok { OnOk result (IsLinked cards.old cards.new card side daughter) }
    ensures err { IfErr result (λ f. (f ≡ WiringFault.Broken) × (MayStand cards.old card daughter → ⊥)) }
{
    if let Some(daughter) = daughter {
        let below = usize::from(daughter);
        if daughter <= card || below >= cards.len() || cards[below].parent.is_some() {
            return Err(WiringFault::Broken);
        }
        cards[below].parent = Some((card, side));
    }
    let links = &mut cards[usize::from(card)];
    match side {
        Side::Left => links.left = daughter,
        Side::Right => links.right = daughter,
    }
    Ok(())
}

// Whether every card but the first has a parent.
fn all_have_parents(cards: &[Links]) -> bool
    requires { 1 ≤ length cards.now }
    ensures { IsTrue result ↔ AllHaveParents cards.now }
{
    cards[1..].iter().all(|card| card.parent.is_some())
}

// Links cards as a table lists them, if it lists a tree.
pub(super) fn link_all(cards: &mut [Links], table: &[u8]) -> Result<(), WiringFault>
    requires size { Sized table.now }
    requires bare { cards.old ≡ replicate (listed_cards table.now) unlinked }
    ensures ok { OnOk result (IsTreeOf table.now (linked_shape (listed_cards table.now) cards.new)) }
    ensures err { IfErr result (λ f. (f ≡ WiringFault.Broken) × (Sound table.now → ⊥)) }
{
    for (entries, card) in table.chunks_exact(2).zip(0..) {
        link(cards, card, Side::Left, named(entries[0]))?;
        link(cards, card, Side::Right, named(entries[1]))?;
    }
    if all_have_parents(cards) {
        Ok(())
    } else {
        Err(WiringFault::Broken)
    }
}
