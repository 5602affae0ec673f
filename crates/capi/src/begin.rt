// Making a tree in the host's memory.
ghost use Rattle.std.specs.Prelude.{◌≡◌};
ghost use Rattle.std.specs.Borrow.{sem};
ghost use denote.RawPtr.{Testable};
ghost use Rattle.capi.specs.Memory.{tree_bytes, room_for_tree, begun};

use crate::NO_TREE;
use host::HostTree;
use std::mem::size_of;

// The room given is too small for a tree.
const NO_ROOM: u64 = 103 << 32;

// How many bytes a tree takes.
#[unsafe(no_mangle)]
pub extern "C" fn zel_bytes() -> usize
    ensures { result ≡ tree_bytes }
{
    size_of::<HostTree>()
}

// Makes the tree of one card and no rules in this room, if it is there and so many bytes are enough for it.
#[unsafe(no_mangle)]
pub unsafe extern "C" fn zel_begin(room: *mut u8, bytes: usize) -> u64
    requires testable { Testable room }
    requires* memory { sem 𝓛 (room_for_tree bytes room) }
    ensures* { sem 𝓛 (begun bytes room result) }
{
    if bytes < size_of::<HostTree>() {
        return NO_ROOM;
    }
    if room.is_null() {
        return NO_TREE;
    }
    (room as *mut HostTree).write(HostTree::single());
    0
}
