// A card and the cards above it, from the card up to card 0.
ghost use Rattle.std.specs.Prelude.{◌≡◌, ◌≤◌, length};
ghost use Rattle.std.specs.Iterator.{YieldsFirst, item_count};
ghost use Rattle.wiring.specs.Shapes.{most_cards};
ghost use Rattle.routing.specs.Ancestors.{upward, upward_from};

use wiring::Wiring;

// The card that comes next, until none is left.
#[derive(Drop)]
pub(crate) struct Ancestors<'a, W> {
    wiring: &'a W,
    at: Option<u16>,
}

// This card and the cards above it.
pub(crate) fn up_from<'a, W: Wiring>(wiring: &'a W, card: u16) -> Ancestors<'a, W>
    ensures cards { upward_from (W.shape result.wiring.now) result.at ≡ upward (W.shape wiring.now) card }
    ensures few { length (upward_from (W.shape result.wiring.now) result.at) ≤ most_cards }
{
    Ancestors {
        wiring,
        at: Some(card),
    }
}

impl<'a, W: Wiring> Iterator for Ancestors<'a, W> {
    type Item = u16;

    ghost next_gives = { YieldsFirst (λ s. upward_from (W.shape s.wiring.now) s.at) };

    ghost remaining = { item_count (λ s. upward_from (W.shape s.wiring.now) s.at) };

    fn next(&mut self) -> Option<u16> {
        let card = self.at?;
        self.at = self.wiring.parent(card).map(|(parent, _)| parent);
        Some(card)
    }
}
