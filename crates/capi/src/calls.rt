// The calls on a tree. Each says what the same call of the crate `host` says.
ghost use Rattle.std.specs.Borrow.{sem};
ghost use Rattle.host.specs.Calls.{Sent, Fired, Taken};
ghost use Rattle.capi.specs.Memory.{given_tree, answered};
ghost use denote.RawPtr.{Testable};

use crate::NO_TREE;
use host::HostTree;

// Queues a whole packet at a card, or nothing.
#[unsafe(no_mangle)]
pub unsafe extern "C" fn zel_send(tree: *mut u8, card: u16, packet: &[u32]) -> u64
    ghost before: { HostTree }
    requires testable { Testable tree }
    requires* memory { sem 𝓛 (given_tree tree before) }
    ensures* { sem 𝓛 (answered tree result (Sent card packet.now before result)) }
{
    if tree.is_null() {
        return NO_TREE;
    }
    (&mut *(tree as *mut HostTree)).send(card, packet)
}

// Moves one word through one station.
#[unsafe(no_mangle)]
pub unsafe extern "C" fn zel_fire(tree: *mut u8, card: u16, station: u8, input: u8) -> u64
    ghost before: { HostTree }
    requires testable { Testable tree }
    requires* memory { sem 𝓛 (given_tree tree before) }
    ensures* { sem 𝓛 (answered tree result (Fired card station input before result)) }
{
    if tree.is_null() {
        return NO_TREE;
    }
    (&mut *(tree as *mut HostTree)).fire(card, station, input)
}

// Removes and returns the oldest word of an inbox.
#[unsafe(no_mangle)]
pub unsafe extern "C" fn zel_take(tree: *mut u8, card: u16) -> u64
    ghost before: { HostTree }
    requires testable { Testable tree }
    requires* memory { sem 𝓛 (given_tree tree before) }
    ensures* { sem 𝓛 (answered tree result (Taken card before result)) }
{
    if tree.is_null() {
        return NO_TREE;
    }
    (&mut *(tree as *mut HostTree)).take(card)
}
