// Setting a tree up, and setting it up anew.
ghost use Rattle.std.specs.Borrow.{sem};
ghost use Rattle.host.specs.SetUps.{FullSetUp, WiredSetUp};
ghost use Rattle.capi.specs.Memory.{given_tree, answered};
ghost use denote.RawPtr.{Testable};

use crate::NO_TREE;
use host::{HostTree, RuleLine};

// A new full tree of so many levels.
#[unsafe(no_mangle)]
pub unsafe extern "C" fn zel_full(tree: *mut u8, levels: u16, rules: &[RuleLine]) -> u64
    ghost before: { HostTree }
    requires testable { Testable tree }
    requires* memory { sem 𝓛 (given_tree tree before) }
    ensures* { sem 𝓛 (answered tree result (FullSetUp levels rules.now before result)) }
{
    if tree.is_null() {
        return NO_TREE;
    }
    (&mut *(tree as *mut HostTree)).set_full(levels, rules)
}

// A new tree, that the table lists.
#[unsafe(no_mangle)]
pub unsafe extern "C" fn zel_wired(tree: *mut u8, table: &[u8], rules: &[RuleLine]) -> u64
    ghost before: { HostTree }
    requires testable { Testable tree }
    requires* memory { sem 𝓛 (given_tree tree before) }
    ensures* { sem 𝓛 (answered tree result (WiredSetUp table.now rules.now before result)) }
{
    if tree.is_null() {
        return NO_TREE;
    }
    (&mut *(tree as *mut HostTree)).set_wired(table, rules)
}
