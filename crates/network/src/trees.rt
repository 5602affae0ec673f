// What holds of every tree besides the three laws.
ghost use Rattle.std.specs.Prelude.{◌≡◌};
ghost use Rattle.network.specs.Trees.{RefusedSame, CountsLaw, OrderlyLaw, most_owed, Bounds};

// A refused call leaves the tree as it was, whatever the tree.
#[tactic(auto, using(crate::proofs::RefusedCalls::refused_same))]
pub fn refused_calls_change_nothing()
    ensures { RefusedSame }
{}

// A granted fire lowers the hops owed by one, a granted send raises them by the packet's path hops, a take leaves them.
#[tactic(auto, using(crate::proofs::CallCounts::counts_law))]
pub fn calls_count()
    ensures { CountsLaw }
{}

// No body or tail waits before a free station, no head waits at the input for which a station is held, and where a word waits no fire is
// refused for want of one.
#[tactic(auto, using(crate::proofs::WaitingFits::orderly_law))]
pub fn waiting_words_fit()
    ensures { OrderlyLaw }
{}

// The most hops that can be owed; hops owed, queues and inboxes keep to their bounds.
#[tactic(auto, using(crate::proofs::OwedBound::bounds))]
pub fn most_hops_owed() -> u32
    ensures number { result ≡ most_owed }
    ensures bounds { Bounds }
{
    128_774
}
