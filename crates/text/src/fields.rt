// The fields of a line, cut off one by one from the left.
ghost use Rattle.std.specs.Prelude.{◌≡◌, ◌∷◌, ℕ, List};
ghost use Rattle.std.specs.Iterator.{YieldsFirstRef, item_count};
ghost use Rattle.text.specs.Fields.{fields_of, fields_in, fields_left, rest_of, read_first, none_left};
ghost use Rattle.text.specs.Parted.{Parted};

use crate::spelling::Spelling;

// What is left of a line: the text from the next field on, or nothing once the last field is cut off. Clauses read it by `fields_left`: a `Copy`
// struct with a lifetime may have no model.
#[derive(Clone, Copy)]
pub struct Fields<'a> {
    rest: Option<&'a [u8]>,
}

// The first field of a text, and the text after the space that ends it, if one does.
// Not std's slice `split`: a `Fields` is `Copy` and tells whether it is done, and no field could name the type of `split`'s closure. Nor `position`,
// which counts each byte twice.
fn cut(text: &[u8]) -> (&[u8], Option<&[u8]>)
    ensures { fields_of text.now ≡ result.0.now ∷ fields_in result.1 }
{
    for i in 0..text.len() {
        if text[i] == b' ' {
            return (&text[..i], Some(&text[i + 1..]));
        }
    }
    (text, None)
}

impl<'a> Iterator for Fields<'a> {
    type Item = &'a [u8];

    ghost next_gives = { YieldsFirstRef fields_left };

    ghost remaining = { item_count fields_left };

    // Cuts off the next field.
    fn next(&mut self) -> Option<&'a [u8]> {
        let (field, rest) = cut(self.rest?);
        self.rest = rest;
        Some(field)
    }
}

impl<'a> Fields<'a> {
    // All the fields of a line. They are the only ones that single spaces part it into.
    pub fn new(line: &'a [u8]) -> Fields<'a>
        ensures value { fields_left result ≡ fields_of line.now }
        ensures parted { Parted line.now (fields_left result) }
        ensures only { (fs : List (List ℕ)) → Parted line.now fs → fs ≡ fields_left result }
    {
        Fields { rest: Some(line) }
    }

    // Whether every field is cut off.
    pub fn is_done(&self) -> bool
        ensures { result ≡ none_left (fields_left self.now) }
    {
        self.rest.is_none()
    }

    // Cuts off the next field, and reads it.
    pub fn read<S: Spelling>(&mut self) -> Option<S::Value>
        ensures value { result ≡ read_first S.spells (fields_left self.old) }
        ensures rest { fields_left self.new ≡ rest_of (fields_left self.old) }
    {
        S::read(self.next()?)
    }
}
