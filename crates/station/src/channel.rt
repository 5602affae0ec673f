// The places where words wait for a station.
ghost use Rattle.std.specs.Prelude.{◌≡◌};
ghost use Rattle.station.specs.Channels.{channel_card};

use wiring::CardId;

// A card's queue, its up link to its parent, its turn link, and the down link from its parent.
#[derive(Clone, Copy)]
pub enum Channel {
    Queued(CardId),
    UpLink(CardId),
    TurnLink(CardId),
    DownLink(CardId),
}

impl Channel {
    // The card whose channel it is.
    pub fn card(&self) -> CardId
        ensures { result ≡ channel_card self.now }
    {
        match *self {
            Channel::Queued(card)
            | Channel::UpLink(card)
            | Channel::TurnLink(card)
            | Channel::DownLink(card) => card,
        }
    }
}
