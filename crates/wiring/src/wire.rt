// A wiring as an interface. All that other code knows of one is its shape and the laws.
ghost use Rattle.std.specs.Prelude.{◌≡◌};
ghost use Rattle.wiring.specs.Shapes.{Shape, Lawful};

use packet::Side;

pub trait Wiring {
    ghost shape: { Self → Shape };

    // How many cards there are.
    fn cards(&self) -> u16
        ensures { result ≡ (shape self.now).cards };

    // The daughter of a card on this side.
    fn daughter(&self, card: u16, side: Side) -> Option<u16>
        ensures { result ≡ (shape self.now).daughter side card };

    // The parent of a card, and the side of the parent on which the card is.
    fn parent(&self, card: u16) -> Option<(u16, Side)>
        ensures { result ≡ (shape self.now).parent card };

    ghost lawful: { (s : Self) → Lawful (shape s) };
}
