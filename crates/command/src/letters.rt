// Route letters.
ghost use Rattle.std.specs.Prelude.{◌≡◌, ◌<◌, ◌≤◌, IfSome};
ghost use Rattle.command.specs.Letters.{letter_bit, letters_from, route_of};

use text::Spelling;

// The bit that a letter writes.
fn bit(letter: u8) -> Option<u32>
    ensures value { result ≡ letter_bit letter }
    ensures small { IfSome result (λ d. d ≤ 1) }
{
    match letter {
        b'U' | b'R' | b'S' => Some(1),
        b'D' | b'L' => Some(0),
        _ => None,
    }
}

// The number that letters write, the first one's bit worth 256.
fn bits(letters: &[u8]) -> Option<u32>
    ensures value { result ≡ letters_from 256 0 letters.now }
    ensures small { IfSome result (λ n. n < 512) }
{
    let mut bits = 0;
    let mut weight = 256;
    for letter in letters {
        bits += bit(*letter)? * weight;
        weight /= 2;
    }
    Some(bits)
}

// One to nine letters, the first one's bit highest, as the number of a route's nine bits.
#[derive(Clone, Copy)]
pub struct RouteLetters;

impl Spelling for RouteLetters {
    type Value = u32;

    ghost spells = { route_of };

    fn read(field: &[u8]) -> Option<u32> {
        if (1..=9).contains(&field.len()) {
            bits(field)
        } else {
            None
        }
    }
}
