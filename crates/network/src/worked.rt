// Worked packets and calls, computed from the definitions.
ghost use Rattle.std.specs.Prelude.{◌≡◌, length};
ghost use Rattle.network.specs.Worked.{AllHold, worked};

// How many entries are worked through; each of them is as listed.
#[tactic(auto, using(crate::proofs::Examples::all_hold))]
pub fn worked_entries() -> u8
    ensures count { result ≡ length worked }
    ensures hold { AllHold worked }
{
    6
}
