// Worked routes, computed from the definitions.
ghost use Rattle.std.specs.Prelude.{◌≡◌, length};
ghost use Rattle.routing.specs.Worked.{AllHold, worked};

// How many routes are worked through; each of them is as listed.
pub fn worked_routes() -> u8
    ensures count { result ≡ length worked }
    ensures hold { AllHold worked }
{
    9
}
