// The next packet of the words that were delivered.
ghost use Rattle.std.specs.Prelude.{◌≡◌, ◌+◌, ◌^◌, ◌<◌, ◌≤◌, length, position};
ghost use Rattle.packet.specs.Deliveries.{ends, unfit, packet_in, next_packet, place_after, arrival_told};

use super::Delivered;
use crate::arrivals::Arrival;
use crate::heads::KeyWord;
use crate::words::Kind;
use refusal::DeliveryFault;

// Where the first tail stands.
fn first_tail(words: &[u32]) -> Option<usize>
    ensures { result ≡ position ends words.now }
{
    words.iter().position(|word| Kind::of(*word) == Kind::Tail)
}

// Where the first word stands that is never delivered.
fn first_unfit(words: &[u32]) -> Option<usize>
    ensures { result ≡ position unfit words.now }
{
    words.iter().position(|word| matches!(Kind::of(*word), Kind::Head | Kind::Unused))
}

// The packet of these words, the first of them at this place.
fn packet_in<'a>(words: &'a [u32], place: usize) -> Result<Option<Arrival<'a>>, DeliveryFault>
    requires { (0 < length words.now) × (place + length words.now < 2 ^ 64) }
    ensures { arrival_told result ≡ packet_in words.now place }
{
    if let Some(i) = first_unfit(words) {
        return Err(DeliveryFault::WrongKind { place: place + i });
    }
    let key_word = words[0];
    if key_word / 0x100 % 0x10_0000 != 0 {
        return Err(DeliveryFault::WrongBits { place });
    }
    let KeyWord { class, key } = KeyWord::read(key_word);
    Ok(Some(Arrival {
        words,
        key,
        class,
        place,
    }))
}

// The packet that begins at this place.
fn next_at<'a>(words: &'a [u32], place: usize) -> Result<Option<Arrival<'a>>, DeliveryFault>
    requires { place ≤ length words.now }
    ensures value { arrival_told result ≡ next_packet words.now place }
    ensures within { place_after place (arrival_told result) ≤ length words.now }
{
    let left = &words[place..];
    let Some(tail) = first_tail(left) else {
        return Ok(None);
    };
    packet_in(&left[..=tail], place)
}

impl<'a> Delivered<'a> {
    // A reader at the first of these words.
    pub fn new(words: &'a [u32]) -> Delivered<'a>
        ensures words { result.words.now ≡ words.now }
        ensures place { result.place ≡ 0 }
    {
        Delivered { words, place: 0 }
    }

    // The place of the next word to read.
    pub fn place(&self) -> usize
        ensures { result ≡ self.now.place }
    {
        self.place
    }

    // The next packet, or none where no tail is left. A refusal leaves the reader where it stands.
    // No Iterator: past a refusal its items would have no end, each the same refusal.
    pub fn next(&mut self) -> Result<Option<Arrival<'a>>, DeliveryFault>
        ensures value { arrival_told result ≡ next_packet self.old.words.now self.old.place }
        ensures place { self.new.place ≡ place_after self.old.place (arrival_told result) }
        ensures words { self.new.words.now ≡ self.old.words.now }
    {
        let next = next_at(self.words, self.place)?;
        if let Some(arrival) = next {
            self.place += arrival.words.len();
        }
        Ok(next)
    }
}
