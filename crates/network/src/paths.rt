// The paths of sent packets, for every lawful wiring, every policy and every list of calls.
ghost use Rattle.network.specs.Paths.{FiresMoveOn, PathReaches};

// Each granted fire moves one word of some sent packet one station on along that packet's path.
#[tactic(auto, using(crate::proofs::MovesOn::fires_move_on))]
pub fn fires_move_on()
    ensures { FiresMoveOn }
{}

// The cards that a sent packet reaches are exactly those where its path has the route at an end.
#[tactic(auto, using(crate::proofs::Reaching::path_reaches))]
pub fn path_reaches()
    ensures { PathReaches }
{}
