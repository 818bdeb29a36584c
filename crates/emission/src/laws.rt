ghost use Rattle.std.specs.Prelude.{◌≡◌};
ghost use Rattle.emission.specs.Laws.{ExactParts};

// The parts are the emissions of the formulas, exactly.
pub fn parts_stand() -> u8
    ensures zero { result ≡ 0 }
    ensures exact { ExactParts }
{
    0
}
