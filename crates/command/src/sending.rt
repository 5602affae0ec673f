// The packet of a send line.
ghost use Rattle.std.specs.Prelude.{◌≡◌, ◌<◌, ◌≤◌, ◌^◌};
ghost use Rattle.std.specs.Option.{option_map};
ghost use Rattle.packet.specs.Heads.{head_word};
ghost use Rattle.text.specs.Fields.{fields_left, none_left};
ghost use Rattle.command.specs.Packets.{word_kinded, packet_of};
ghost use Rattle.command.specs.Sizes.{bytes_taken};
ghost use Rattle.command.specs.Commands.{meant};
ghost use Rattle.command.specs.Lines.{words_of, send_of};

use crate::command::{Command, PacketRoom};
use crate::letters::RouteLetters;
use crate::names::{FreeWord, ModeName};
use packet::{Head, Route};
use text::{Decimal, Fields, HexByte, Spelling};

// A word as it stands in its packet: the tail if no field is left, and a body otherwise.
fn kinded(word: u32, fields: Fields) -> u32
    requires { word < 2 ^ 30 }
    ensures { result ≡ word_kinded (none_left (fields_left fields.entry)) word }
{
    if fields.is_done() {
        0x4000_0000 + word
    } else {
        word
    }
}

// A head, a key word, and a word for each field that is left. Fields of a line that ends within 187 bytes are at most 93 words.
#[tactic(auto, using(crate::proofs::SentWords::free_word_small, crate::proofs::SentWords::free_word_long, crate::proofs::SentWords::onward_more))]
fn packet<'a>(
    head: Head,
    key: u8,
    mut fields: Fields,
    packet: &'a mut PacketRoom,
) -> Option<&'a [u32]>
    requires { bytes_taken (fields_left fields) ≤ 187 }
    ensures { option_map (λ p. p.now) result ≡ option_map (packet_of head.mode head.route.bits key) (words_of (fields_left fields.entry)) }
{
    packet.clear();
    packet.push(u32::from(head));
    packet.push(kinded(u32::from(key), fields));
    while let Some(field) = fields.next() {
        let word = FreeWord::read(field)?;
        packet.push(kinded(word, fields));
    }
    Some(packet.as_slice())
}

// A card, and the mode, route, key and words of a packet. On a line of 200 bytes 196 are left after `send` and its space, with the line's end counted.
#[tactic(auto, using(crate::proofs::Taken::decimal_takes, crate::proofs::Taken::mode_takes, crate::proofs::Taken::route_takes, crate::proofs::Taken::route_below, crate::proofs::Taken::key_takes))]
pub(crate) fn send<'a>(mut fields: Fields, room: &'a mut PacketRoom) -> Option<Command<'a>>
    requires { bytes_taken (fields_left fields) ≤ 196 }
    ensures { option_map meant result ≡ send_of (fields_left fields.entry) }
{
    let card = fields.read::<Decimal>()?;
    let mode = fields.read::<ModeName>()?;
    let route = Route::low(fields.read::<RouteLetters>()?);
    let key = fields.read::<HexByte>()?;
    let packet = packet(Head { mode, route }, key, fields, room)?;
    Some(Command::Send { card, packet })
}
