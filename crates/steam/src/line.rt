ghost use Rattle.std.specs.Prelude.{◌≡◌, ◌<◌, ◌⊎◌, IfSome, MatchOption};
ghost use Rattle.steam.specs.Line.{Saturated, enthalpy_over, enthalpy_under};

use crate::table::rows_about;

// Hundredths of kJ/kg as an exact fraction: over / under.
#[derive(Clone, Copy)]
pub struct Enthalpy {
    pub over: u32,
    pub under: u32,
}

// The enthalpy of saturated steam, or none at a pressure outside the table.
pub fn saturated(kilopascals: u32) -> Option<Enthalpy>
    ensures within { MatchOption result ((kilopascals < 1) ⊎ (22000 < kilopascals)) (λ e. Saturated kilopascals e.over e.under) }
    ensures gives { IfSome result (λ e. (e.over ≡ enthalpy_over kilopascals) × (e.under ≡ enthalpy_under kilopascals)) }
{
    let ((below, lower), (above, upper)) = rows_about(kilopascals)?;
    // Each row weighs by the distance to the other: enthalpy falls at high pressures, so no difference of enthalpies is taken.
    Some(Enthalpy {
        over: lower * (above - kilopascals) + upper * (kilopascals - below),
        under: above - below,
    })
}
