// The three laws of the tree, for every lawful wiring, every policy and every list of calls.
#![tactic(auto, using(crate::proofs::AllLaws::three_laws, crate::proofs::AllLaws::every_call))]

ghost use Rattle.network.specs.Laws.{HopsLaw, ProgressLaw, DeliveryLaw, ThreeLaws, EveryCall};

// Hops owed are the path hops of all packets ever queued, less one for each granted fire.
pub fn hops_hold()
    ensures { HopsLaw }
{}

// While hops are owed, some fire would be granted next, or refused only for a full inbox.
pub fn progress_holds()
    ensures { ProgressLaw }
{}

// Once no hops are owed, the words of each card are whole arrivals, each list exactly as often as granted sends call for.
pub fn delivery_holds()
    ensures { DeliveryLaw }
{}

// All three.
pub fn laws_hold()
    ensures { ThreeLaws }
{}

// A tree that calls lead to is led on by every further call, and the laws hold there.
pub fn calls_keep_the_laws()
    ensures { EveryCall }
{}
