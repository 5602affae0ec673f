// How a field spells a value.
ghost use Rattle.std.specs.Prelude.{◌≡◌, ℕ, List, Option};
ghost use Rattle.text.specs.Number.{decimal_of, hex_byte_of, hex_word_of};

use crate::number::{decimal, hex_byte, hex_word};

// A way to read a value from one field. A trait, since a closure that is passed in asks each caller to show that it may be called.
pub trait Spelling {
    type Value: Drop;

    ghost spells: { List ℕ → Option Self.Value };

    fn read(field: &[u8]) -> Option<Self::Value>
        ensures { result ≡ spells field.now };
}

// One to three decimal digits.
#[derive(Clone, Copy)]
pub struct Decimal;

impl Spelling for Decimal {
    type Value = u16;

    ghost spells = { decimal_of };

    fn read(field: &[u8]) -> Option<u16> {
        decimal(field)
    }
}

// Exactly two hexadecimal digits.
#[derive(Clone, Copy)]
pub struct HexByte;

impl Spelling for HexByte {
    type Value = u8;

    ghost spells = { hex_byte_of };

    fn read(field: &[u8]) -> Option<u8> {
        hex_byte(field)
    }
}

// One to eight hexadecimal digits.
#[derive(Clone, Copy)]
pub struct HexWord;

impl Spelling for HexWord {
    type Value = u32;

    ghost spells = { hex_word_of };

    fn read(field: &[u8]) -> Option<u32> {
        hex_word(field)
    }
}
