// The calls that change nothing.
ghost use Rattle.std.specs.Borrow.{sem};
ghost use Rattle.host.specs.Calls.{Owes, Planned};
ghost use Rattle.capi.specs.Memory.{given_tree, told_at};
ghost use denote.RawPtr.{Testable};

use crate::NO_TREE;
use host::HostTree;

// The hops owed.
#[unsafe(no_mangle)]
pub unsafe extern "C" fn zel_owed(tree: *const u8) -> u64
    ghost before: { HostTree }
    requires testable { Testable tree }
    requires* memory { sem 𝓛 (given_tree tree before) }
    ensures* same { sem 𝓛 (given_tree tree before) }
    ensures answer { told_at tree result (Owes before result) }
{
    if tree.is_null() {
        return NO_TREE;
    }
    (&*(tree as *const HostTree)).owed()
}

// The head of a packet from the sender to these cards.
#[unsafe(no_mangle)]
pub unsafe extern "C" fn zel_order(tree: *const u8, sender: u16, cards: &[u16]) -> u64
    ghost before: { HostTree }
    requires testable { Testable tree }
    requires* memory { sem 𝓛 (given_tree tree before) }
    ensures* same { sem 𝓛 (given_tree tree before) }
    ensures answer { told_at tree result (Planned sender cards.now before result) }
{
    if tree.is_null() {
        return NO_TREE;
    }
    (&*(tree as *const HostTree)).order(sender, cards)
}
