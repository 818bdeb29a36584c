ghost use Rattle.std.specs.Prelude.{◌≡◌, ◌*◌, ◌≤◌, IfOk};
ghost use Rattle.std.specs.Option.{option_map};
ghost use Rattle.refusal.specs.Said.{said};
ghost use Rattle.factor.specs.Faults as factors;
ghost use Rattle.factor.specs.Questions.{asked_of};
ghost use Rattle.record.specs.Views.{raw_of};
ghost use Rattle.emission.specs.Entries.{asked, factor_in, entry_in, Limited};
ghost use Rattle.emission.specs.Faults.{refusal_of};
ghost use Rattle.emission.specs.Parts.{grams_of, most_grams};
ghost use Rattle.emission.specs.Views.{kept_of};

use crate::entry::Entry;
use crate::fault::EmissionFault;
use crate::parts::{check_cod, check_methane, emission};
use factor::{Class, Factor, FactorFault, Question, Source};
use kind::Kind;
use record::Record;
use rounding::nearest_whole;

const PARTS_PER_GRAM: u128 = 30_000_000_000;

// What a record asks a source for; bought CO2 asks nothing.
fn question(lawful: Record) -> Option<Question>
    ensures { option_map asked_of result ≡ asked (raw_of lawful) }
{
    let class = match lawful.kind() {
        Kind::FuelBurnt(fuel) => Class::Combustion(fuel),
        Kind::CarbonateUsed(carbonate) => Class::Decomposition(carbonate),
        Kind::BoughtCo2 => return None,
        Kind::WastewaterTreated => Class::Methane,
        Kind::PowerBought | Kind::PowerSold => Class::Power,
        Kind::HeatBought(_) | Kind::HeatSold(_) => Class::Heat,
    };
    Some(Question {
        class,
        tier: lawful.tier(),
        year: lawful.day().year(),
    })
}

fn factor_for<S: Source>(lawful: Record, source: &mut S) -> Result<Option<Factor>, FactorFault>
    ensures gives { said (λ f. f) factors.refusal_of result ≡ factor_in (asked (raw_of lawful)) (S.Source.table source.old) }
    ensures same { S.Source.table source.new ≡ S.Source.table source.old }
    ensures limits { IfOk result (λ f. Limited (asked (raw_of lawful)) f) }
{
    // No fault: a record that asks nothing has no factor.
    let Some(question) = question(lawful) else {
        return Ok(None);
    };
    let factor = source.ask(question).ok_or(FactorFault::FactorMissing)?;
    Ok(Some(factor))
}

// Grams of an emission that no lawful record exceeds.
fn grams(parts: u128) -> u64
    requires { parts ≤ 800000000000 * 30000000000 }
    ensures { result ≡ grams_of parts }
{
    nearest_whole(parts, PARTS_PER_GRAM).unwrap() as u64
}

// What is kept of a record with the factor that the source holds for it.
pub fn entry_of<S: Source>(lawful: Record, source: &mut S) -> Result<Entry, EmissionFault>
    ensures gives { said kept_of refusal_of result ≡ entry_in (raw_of lawful) (S.Source.table source.old) }
    ensures same { S.Source.table source.new ≡ S.Source.table source.old }
    ensures most { IfOk result (λ e. e.grams ≤ most_grams) }
{
    let quantities = lawful.readings().quantities();
    check_cod(quantities)?;
    let factor = factor_for(lawful, source)?;
    check_methane(quantities, factor)?;
    let parts = emission(lawful.kind(), quantities, lawful.share(), factor);
    Ok(Entry {
        day: lawful.day().number(),
        kind: lawful.kind(),
        tier: lawful.tier(),
        share: lawful.share(),
        quantities,
        factor,
        grams: grams(parts),
    })
}
