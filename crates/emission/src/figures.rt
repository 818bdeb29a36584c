ghost use Rattle.std.specs.Prelude.{◌≡◌};
ghost use Rattle.emission.specs.Figures.{Figures};

// Figures that are known from outside come out.
pub fn figures_stand() -> u8
    ensures zero { result ≡ 0 }
    ensures figures { Figures }
{
    0
}
