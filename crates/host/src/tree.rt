// The tree that a host holds.
use router::Tree;
use rulebook::Rulebook;
use wiring::Cabinet;

// A tree of either wiring with range rules. The wiring stands here once more, since route orders read it.
#[derive(Drop)]
pub struct HostTree {
    pub(crate) wiring: Cabinet,
    pub(crate) tree: Tree<Cabinet, Rulebook>,
}
