// A head on its way, one bit of its route at a time.
ghost use Rattle.std.specs.Prelude.{◌≡◌};
ghost use Rattle.packet.specs.Routes.{top_bit, stops, advance};
ghost use Rattle.packet.specs.Heads.{floods};

use crate::words::bit;

// The bit of a head's route that is read next.
#[tactic(auto, unfolding(crate::specs::Routes::top_bit))]
pub fn top_bit(head: u32) -> bool
    ensures { result ≡ top_bit head }
{
    bit(8, head)
}

// No 1 is left in the route once it is moved up.
#[tactic(auto, using(crate::proofs::Moving::none_below), unfolding(crate::specs::Routes::stops))]
pub fn stops(head: u32) -> bool
    ensures { result ≡ stops head }
{
    head % 256 == 0
}

// The head with its route moved up one bit.
#[tactic(auto, unfolding(crate::specs::Routes::advance, crate::specs::Routes::shifted))]
pub fn advance(head: u32) -> u32
    ensures { result ≡ advance head }
{
    head / 512 * 512 + head % 256 * 2
}

// The head's mode is flood.
#[tactic(auto, unfolding(crate::specs::Heads::floods))]
pub fn floods(head: u32) -> bool
    ensures { result ≡ floods head }
{
    bit(29, head)
}
