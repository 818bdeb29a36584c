ghost use Rattle.std.specs.Prelude.{◌≡◌};
ghost use Rattle.reading.specs.Laws.{Stands};

// A set and its bytes determine each other.
#[tactic(auto, using(crate::proofs::Joined::read_back, crate::proofs::Joined::written_back, crate::proofs::Joined::sized, crate::proofs::Joined::written))]
pub fn sets_stand() -> u8
    ensures zero { result ≡ 0 }
    ensures sets { Stands }
{
    0
}
