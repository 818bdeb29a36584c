ghost use Rattle.std.specs.Prelude.{◌≡◌};
ghost use Rattle.statement.specs.Laws.{ReadsBack};

// A statement whose numbers fit their bytes is read back from them.
pub fn statements_stand() -> u8
    ensures zero { result ≡ 0 }
    ensures back { ReadsBack }
{
    0
}
