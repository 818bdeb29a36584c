// The whole number nearest to a fraction, and the laws that other crates round by.
#![tactic(auto)]

ghost use Rattle.std.specs.Prelude.{◌≡◌, if◌then◌else◌, Some, None, nat_eq};
ghost use Rattle.rounding.specs.Laws.{Stands};
ghost use Rattle.rounding.specs.Nearest.{nearest};

// The whole number nearest to over / under, unless under is 0.
#[tactic(auto, using(crate::proofs::Laws::down, crate::proofs::Laws::up))]
pub fn nearest_whole(over: u128, under: u128) -> Option<u128>
    ensures { result ≡ (if nat_eq under 0 then None else Some (nearest over under)) }
{
    let whole = over.checked_div(under)?;
    let rest = over % under;
    // Twice the rest is not below the denominator: a half or more is left.
    if rest < under - rest {
        Some(whole)
    } else {
        Some(whole + 1)
    }
}

// Each fraction has one nearest whole number, and `nearest` gives it.
pub fn nearest_stands() -> u8
    ensures zero { result ≡ 0 }
    ensures one { Stands }
{
    0
}
