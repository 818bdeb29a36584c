ghost use Rattle.std.specs.Prelude.{◌≡◌};
ghost use Rattle.reading.specs.Laws.{Examples};

// Readings at and past a limit, and quantities of known readings, come out.
pub fn examples_stand() -> u8
    ensures zero { result ≡ 0 }
    ensures examples { Examples }
{
    0
}
