// The reader of delivered words. Its methods stand in the file below.
ghost use Rattle.std.specs.Prelude.{◌≤◌, length};

mod reader;

// The words that were taken from an inbox, and the place up to which they are read.
#[derive(Clone, Copy)]
pub struct Delivered<'a> {
    words: &'a [u32],
    place: usize,
    ghost within: { place ≤ length words.now },
}
