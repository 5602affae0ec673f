// A line of the console, read as a command.
ghost use Rattle.std.specs.Prelude.{◌≡◌, ◌+◌, ◌≤◌, IfSome, Some};
ghost use Rattle.std.specs.Option.{option_map};
ghost use Rattle.command.specs.Commands.{Command as Said, meant};
ghost use Rattle.command.specs.Says.{Spells};
ghost use Rattle.command.specs.Written.{PlainReadBack};
ghost use Rattle.command.specs.Courses.{CoursesReadBack};
ghost use Rattle.text.specs.Fields.{fields_left};
ghost use Rattle.command.specs.Sizes.{bytes_taken, longest_line};
ghost use Rattle.command.specs.Lines.{ended, tree_of, rule_of, fire_of, take_of, fields_command, command_of};

use crate::command::{Command, PacketRoom};
use crate::names::{Class, InputName, StationName};
use crate::sending::send;
use crate::verbs::Verb;
use licence::Span;
use text::{Decimal, Fields, HexByte};

// The most bytes of a line.
pub(crate) const LONGEST_LINE: usize = 200;

// The command, if no field is left.
fn end<'a>(command: Command<'a>, fields: Fields) -> Option<Command<'a>>
    ensures { option_map meant result ≡ ended (meant command.entry) (fields_left fields.entry) }
{
    if fields.is_done() {
        Some(command)
    } else {
        None
    }
}

// The number of levels.
fn tree<'a>(mut fields: Fields) -> Option<Command<'a>>
    ensures { option_map meant result ≡ tree_of (fields_left fields.entry) }
{
    let levels = fields.read::<Decimal>()?;
    end(Command::Tree { levels }, fields)
}

// Low and high card, low and high key, and a class.
fn rule<'a>(mut fields: Fields) -> Option<Command<'a>>
    ensures { option_map meant result ≡ rule_of (fields_left fields.entry) }
{
    let cards = Span {
        low: fields.read::<Decimal>()?,
        high: fields.read::<Decimal>()?,
    };
    let keys = Span {
        low: fields.read::<HexByte>()?,
        high: fields.read::<HexByte>()?,
    };
    let class = fields.read::<Class>()?;
    end(Command::Rule { cards, keys, class }, fields)
}

// A card, its station and an input.
fn fire<'a>(mut fields: Fields) -> Option<Command<'a>>
    ensures { option_map meant result ≡ fire_of (fields_left fields.entry) }
{
    let card = fields.read::<Decimal>()?;
    let station = fields.read::<StationName>()?;
    let input = fields.read::<InputName>()?;
    end(
        Command::Fire {
            card,
            station,
            input,
        },
        fields,
    )
}

// A card.
fn take<'a>(mut fields: Fields) -> Option<Command<'a>>
    ensures { option_map meant result ≡ take_of (fields_left fields.entry) }
{
    let card = fields.read::<Decimal>()?;
    end(Command::Take { card }, fields)
}

// By the first field, what the others say. On a line of 200 bytes they take 201, with the line's end counted.
#[tactic(auto, using(crate::proofs::Taken::send_takes))]
fn command<'a>(mut fields: Fields, room: &'a mut PacketRoom) -> Option<Command<'a>>
    requires { bytes_taken (fields_left fields) ≤ longest_line + 1 }
    ensures { option_map meant result ≡ fields_command (fields_left fields.entry) }
{
    match fields.read::<Verb>()? {
        Verb::Tree => tree(fields),
        Verb::Rule => rule(fields),
        Verb::Go => end(Command::Go, fields),
        Verb::Send => send(fields, room),
        Verb::Fire => fire(fields),
        Verb::Take => take(fields),
        Verb::Owed => end(Command::Owed, fields),
    }
}

// The command of a line, or none where the line is not understood or has more than 200 bytes. It is inlined, so that the command stays in registers.
#[tactic(auto, using(crate::proofs::Taken::line_takes, crate::proofs::Back::plain_read, crate::proofs::Courses::courses_read))]
#[inline(always)]
pub fn read<'a>(line: &[u8], room: &'a mut PacketRoom) -> Option<Command<'a>>
    ensures value { option_map meant result ≡ command_of line.now }
    ensures sound { IfSome result (λ c. Spells line.now (meant c)) }
    ensures complete { (c : Said) → Spells line.now c → option_map meant result ≡ Some c }
    ensures back { PlainReadBack }
    ensures courses { CoursesReadBack }
{
    if line.len() > LONGEST_LINE {
        None
    } else {
        command(Fields::new(line), room)
    }
}
