// What the frame layer's definitions say in the words of the format:
// which byte strings are frames, and which fault a refusal names.
#![tactic(auto)]

ghost use Rattle.std.specs.Prelude.{◌≡◌};
ghost use Rattle.frame_laws.specs.Laws.{Accepts, Refuses, RefusesAsFrame};

// Accepted is exactly what the format writes, and refused is exactly what has the fault that is named.
pub fn frames_stand() -> u8
    ensures zero { result ≡ 0 }
    ensures accepts { Accepts }
    ensures refuses { Refuses }
    ensures layer { RefusesAsFrame }
{
    0
}
