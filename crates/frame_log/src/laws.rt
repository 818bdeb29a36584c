ghost use Rattle.std.specs.Prelude.{◌≡◌};
ghost use Rattle.frame_log.specs.Log.{SpellsOnce};

// A log spells one list of frames, so its counts are determined.
pub fn logs_stand() -> u8
    ensures zero { result ≡ 0 }
    ensures once { SpellsOnce }
{
    0
}
