// Names, classes and words, each read from one field.
ghost use Rattle.std.specs.Prelude.{◌≡◌};
ghost use Rattle.command.specs.Names.{mode_named, station_named, input_named, class_of, free_word_of};

use packet::Mode;
use station::{Input, Station};
use text::{Spelling, decimal, hex_word};

// `T` or `F`.
#[derive(Clone, Copy)]
pub struct ModeName;

impl Spelling for ModeName {
    type Value = Mode;

    ghost spells = { mode_named };

    fn read(field: &[u8]) -> Option<Mode> {
        match field {
            b"T" => Some(Mode::Target),
            b"F" => Some(Mode::Flood),
            _ => None,
        }
    }
}

// `u` or `d`.
#[derive(Clone, Copy)]
pub struct StationName;

impl Spelling for StationName {
    type Value = Station;

    ghost spells = { station_named };

    fn read(field: &[u8]) -> Option<Station> {
        match field {
            b"u" => Some(Station::Up),
            b"d" => Some(Station::Down),
            _ => None,
        }
    }
}

// `l`, `r`, `q`, `p` or `t`.
#[derive(Clone, Copy)]
pub struct InputName;

impl Spelling for InputName {
    type Value = Input;

    ghost spells = { input_named };

    fn read(field: &[u8]) -> Option<Input> {
        match field {
            b"l" => Some(Input::Left),
            b"r" => Some(Input::Right),
            b"q" => Some(Input::Queue),
            b"p" => Some(Input::Parent),
            b"t" => Some(Input::Turn),
            _ => None,
        }
    }
}

// A class in decimal, or `n` for none.
#[derive(Clone, Copy)]
pub struct Class;

impl Spelling for Class {
    type Value = Option<u16>;

    ghost spells = { class_of };

    fn read(field: &[u8]) -> Option<Option<u16>> {
        match field {
            b"n" => Some(None),
            _ => Some(Some(decimal(field)?)),
        }
    }
}

// The most that the 30 free bits of a word hold.
const MOST_FREE: u32 = 0x3fff_ffff;

// The 30 free bits of a word.
#[derive(Clone, Copy)]
pub struct FreeWord;

impl Spelling for FreeWord {
    type Value = u32;

    ghost spells = { free_word_of };

    fn read(field: &[u8]) -> Option<u32> {
        let word = hex_word(field)?;
        if word <= MOST_FREE { Some(word) } else { None }
    }
}
