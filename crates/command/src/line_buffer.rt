// The line that is being read.
ghost use Rattle.std.specs.Prelude.{◌≡◌, ℕ, ◌+◌, ◌≤◌, List, [], ◌∷◌, ◌++◌, map, take};
ghost use Rattle.std.specs.Option.{option_map};
ghost use Rattle.command.specs.Commands.{meant};
ghost use Rattle.command.specs.Lines.{command_of};
ghost use Rattle.command.specs.Sizes.{longest_line};
ghost use Rattle.command.specs.Inputs.{lines_of, kept_with, kept_with_all, fed, said_last, followed, all_said};

use crate::command::{Command, PacketRoom};
use crate::reading::{LONGEST_LINE, read};
use memchr::memchr;
use std::marker::Model;

// One byte more than a line may have, so that a longer line is known as one.
const ROOM: usize = LONGEST_LINE + 1;

// The first bytes of a line whose end is not read yet.
#[derive(Drop)]
pub struct LineBuffer {
    bytes: [u8; ROOM],
    count: usize,
}

// Clauses see the bytes that are kept.
impl Model for LineBuffer {
    ghost Value = { List ℕ };

    ghost view = { λ b. take b.count b.bytes };

    ghost invariant = { λ b. b.count ≤ longest_line + 1 };
}

impl LineBuffer {
    // An input that is fed to it and then ended makes the commands of its lines, in order.
    #[tactic(auto, using(crate::proofs::Feeding::input_said))]
    pub fn new() -> LineBuffer
        ensures empty { result ≡ [] }
        ensures lines { (input : List ℕ) → all_said result input ≡ map command_of (lines_of input) }
    {
        LineBuffer {
            bytes: [0; ROOM],
            count: 0,
        }
    }

    // Takes bytes of the input up to their first newline, or all of them. The newline makes known the command of the line before it, or that it is none.
    pub fn feed<'a>(
        &mut self,
        input: &mut &[u8],
        room: &'a mut PacketRoom,
    ) -> Option<Option<Command<'a>>>
        ensures said { option_map (option_map meant) result ≡ (fed self.old input.old.now).said }
        ensures kept { self.new ≡ (fed self.old input.old.now).kept }
        ensures left { input.new.now ≡ (fed self.old input.old.now).left }
        ensures onward { (more : List ℕ) → all_said self.old (input.old.now ++ more)
            ≡ followed (option_map (option_map meant) result) (all_said self.new (input.new.now ++ more)) }
    {
        let bytes = *input;
        match memchr(b'\n', bytes) {
            Some(end) => {
                *input = &bytes[end + 1..];
                Some(self.end(&bytes[..end], room))
            }
            None => {
                *input = &bytes[bytes.len()..];
                self.keep(bytes);
                None
            }
        }
    }

    // The command of the line that ends with these bytes, or that it is none. Nothing is kept afterwards. A line that stands whole in the input is read there.
    #[tactic(auto, using(crate::proofs::Feeding::whole_line))]
    fn end<'a>(&mut self, bytes: &[u8], room: &'a mut PacketRoom) -> Option<Command<'a>>
        ensures said { option_map meant result ≡ command_of (kept_with_all self.old bytes.now) }
        ensures empty { self.new ≡ [] }
    {
        if self.count != 0 {
            self.keep(bytes);
            return self.close(room);
        }
        read(bytes, room)
    }

    // The command of the line that is kept, or that it is none. Nothing is kept afterwards.
    fn close<'a>(&mut self, room: &'a mut PacketRoom) -> Option<Command<'a>>
        ensures said { option_map meant result ≡ command_of self.old }
        ensures empty { self.new ≡ [] }
    {
        let command = read(&self.bytes[..self.count], room);
        self.count = 0;
        command
    }

    // Keeps these bytes too, as far as there is room.
    fn keep(&mut self, bytes: &[u8])
        ensures { self.new ≡ kept_with_all self.old bytes.now }
    {
        for byte in bytes {
            self.keep_byte(*byte);
        }
    }

    // Keeps one byte more, if there is room.
    #[tactic(auto, using(crate::proofs::Feeding::keep_room, crate::proofs::Feeding::keep_full))]
    fn keep_byte(&mut self, byte: u8)
        ensures { self.new ≡ kept_with self.old byte }
    {
        if self.count < ROOM {
            self.bytes[self.count] = byte;
            self.count += 1;
        }
    }

    // At the end of the input, the command of a last line without a newline, or that it is none. Nothing is kept afterwards.
    pub fn last<'a>(&mut self, room: &'a mut PacketRoom) -> Option<Option<Command<'a>>>
        ensures said { option_map (option_map meant) result ≡ said_last self.old }
        ensures empty { self.new ≡ [] }
    {
        if self.count == 0 {
            None
        } else {
            Some(self.close(room))
        }
    }
}
