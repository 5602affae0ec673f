// The check of a packet as it is sent: its length, the kinds of its words, its reserved bits.
ghost use Rattle.std.specs.Prelude.{◌≡◌, ◌≤◌, false, not, length, drop, slice_index, position};
ghost use Rattle.std.specs.List.{fold};
ghost use Rattle.std.specs.Int.RustNames.{bit_or};
ghost use Rattle.packet.specs.Words.{kind_of};
ghost use Rattle.packet.specs.Packets.{right_kind, kind_fault, reserved_fault, check_packet, header_told};

use crate::heads::Head;
use crate::words::Kind;
use refusal::PacketFault;

// The bits that are 1 in any of these words.
fn gathered(words: &[u32]) -> u32
    ensures { result ≡ fold bit_or 0 words.now }
{
    words.iter().fold(0, |bits, word| bits | *word)
}

// The place of the first word that is no body. Most packets have none, and that is asked of all words at once: a loop with no way out
// of it goes over eight words a turn.
fn first_not_body(words: &[u32]) -> Option<usize>
    ensures { result ≡ position (λ w. not (right_kind false (kind_of w))) words.now }
{
    if Kind::of(gathered(words)) == Kind::Body {
        return None;
    }
    words.iter().position(|word| Kind::of(*word) != Kind::Body)
}

// The place of the first word of the wrong kind: a head comes first, a tail last, and bodies between them.
#[tactic(auto, using(crate::proofs::Checking::kinds_found))]
fn kind_fault(packet: &[u32]) -> Option<usize>
    requires { 2 ≤ length packet.now }
    ensures { result ≡ kind_fault (slice_index packet.now 0) (drop 1 packet.now) }
{
    if Kind::of(packet[0]) != Kind::Head {
        return Some(0);
    }
    let last = packet.len() - 1;
    if let Some(i) = first_not_body(&packet[1..last]) {
        return Some(i + 1);
    }
    if Kind::of(packet[last]) != Kind::Tail {
        return Some(last);
    }
    None
}

// The place of the first of head and key word with a reserved bit set.
#[tactic(auto, unfolding(crate::specs::Packets::reserved_fault))]
fn reserved_fault(head: u32, key: u32) -> Option<usize>
    ensures { result ≡ reserved_fault head key }
{
    if head / 0x200 % 0x10_0000 != 0 {
        return Some(0);
    }
    if key / 0x100 % 0x40_0000 != 0 {
        return Some(1);
    }
    None
}

// The head of a packet that may be sent, as far as the packet alone tells.
pub fn check(packet: &[u32]) -> Result<Head, PacketFault>
    ensures { header_told result ≡ check_packet packet.now }
{
    let [head, key, rest @ ..] = packet else {
        return Err(PacketFault::Length);
    };
    if rest.len() > 62 {
        return Err(PacketFault::Length);
    }
    if let Some(place) = kind_fault(packet) {
        return Err(PacketFault::Kinds { place });
    }
    if let Some(place) = reserved_fault(*head, *key) {
        return Err(PacketFault::Reserved { place });
    }
    Ok(Head::read(*head))
}
