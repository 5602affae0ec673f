// Setting a tree up, and setting it up anew.
ghost use Rattle.std.specs.Prelude.{◌≡◌};
ghost use Rattle.host.specs.Lines.{book_of_lines};
ghost use Rattle.host.specs.SetUps.{MadeOf, SetUp, FullSetUp, WiredSetUp, Single, shape_told};

use crate::lines::{RuleLine, read_rules};
use crate::told::refused;
use crate::tree::HostTree;
use refusal::{Refusal, WiringFault};
use router::Tree;
use rulebook::Rulebook;
use wiring::{Cabinet, FullTree, WiredTree};

// The tree of this wiring and these rules. The wiring is judged first.
fn made(wiring: Result<Cabinet, WiringFault>, lines: &[RuleLine]) -> Result<HostTree, Refusal>
    ensures { MadeOf (shape_told wiring) (book_of_lines lines.now) result }
{
    let wiring = wiring?;
    let rules = read_rules(lines)?;
    Ok(HostTree {
        wiring,
        tree: Tree::new(wiring, rules),
    })
}

impl HostTree {
    // The tree of one card and no rules: what stands before the first set-up.
    pub fn single() -> HostTree
        ensures { Single result }
    {
        let wiring = Cabinet::Full(FullTree::new(1).unwrap());
        HostTree {
            wiring,
            tree: Tree::new(wiring, Rulebook::new()),
        }
    }

    // A new tree of this wiring and these rules. What is refused leaves the tree as it was.
    fn set_up(&mut self, wiring: Result<Cabinet, WiringFault>, lines: &[RuleLine]) -> u64
        ensures { SetUp (shape_told wiring) (book_of_lines lines.now) self.old result self.new }
    {
        match made(wiring, lines) {
            Ok(tree) => {
                *self = tree;
                0
            }
            Err(refusal) => refused(refusal),
        }
    }

    // A new full tree of so many levels.
    pub fn set_full(&mut self, levels: u16, lines: &[RuleLine]) -> u64
        ensures { FullSetUp levels lines.now self.old result self.new }
    {
        self.set_up(FullTree::new(levels).map(Cabinet::Full), lines)
    }

    // A new tree, that the table lists.
    pub fn set_wired(&mut self, table: &[u8], lines: &[RuleLine]) -> u64
        ensures { WiredSetUp table.now lines.now self.old result self.new }
    {
        self.set_up(WiredTree::new(table).map(Cabinet::Wired), lines)
    }
}
