// The fields of a line of bytes, and what a field says.
//
// Fields are parted by single spaces and by nothing else, so a space at either end of a line, or two in a
// row, make an empty field. `Fields` cuts the fields off one by one; `decimal`, `hex_byte` and `hex_word`
// read one field, and `Fields::read` reads the next one by any `Spelling`. A word is matched, as `b"tree"`.
// Nothing is allocated: a field is a part of the caller's line.
#![tactic(auto)]

mod fields;
mod number;
mod spelling;

pub use fields::Fields;
pub use number::{decimal, hex_byte, hex_word};
pub use spelling::{Decimal, HexByte, HexWord, Spelling};
