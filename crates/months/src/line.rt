ghost use Rattle.std.specs.Prelude.{◌≡◌, map};
ghost use Rattle.std.specs.Option.{option_map};
ghost use Rattle.std.specs.Result.{result_ok};
ghost use Rattle.kind.specs.Kinds.{numbers_of};
ghost use Rattle.months.specs.Lines.{line_number, line_numbers, line_of, line_in};

use kind::Kind;

// One of a month's seven lines: what the emissions in it are of.
#[derive(Clone, Copy, PartialEq, Debug)]
pub enum Line {
    Fuel,
    Carbonate,
    Wastewater,
    PowerBought,
    HeatBought,
    PowerSold,
    HeatSold,
}

impl From<Kind> for Line {
    ghost from_gives = { λ kind line. line_number line ≡ line_of (numbers_of kind).0 };

    // The line that entries of a kind stand in.
    fn from(kind: Kind) -> Line {
        match kind {
            Kind::FuelBurnt(_) => Line::Fuel,
            Kind::CarbonateUsed(_) | Kind::BoughtCo2 => Line::Carbonate,
            Kind::WastewaterTreated => Line::Wastewater,
            Kind::PowerBought => Line::PowerBought,
            Kind::HeatBought(_) => Line::HeatBought,
            Kind::PowerSold => Line::PowerSold,
            Kind::HeatSold(_) => Line::HeatSold,
        }
    }
}

impl Line {
    // The lines of a month in their order.
    pub fn all() -> [Line; 7]
        ensures { map line_number result ≡ line_numbers }
    {
        [
            Line::Fuel,
            Line::Carbonate,
            Line::Wastewater,
            Line::PowerBought,
            Line::HeatBought,
            Line::PowerSold,
            Line::HeatSold,
        ]
    }
}

// No line has the number.
#[derive(Clone, Copy, PartialEq, Eq, Debug)]
pub struct NoSuchLine;

impl TryFrom<u8> for Line {
    type Error = NoSuchLine;

    ghost try_from_gives = { λ n r. option_map line_number (result_ok r) ≡ line_in n };

    fn try_from(number: u8) -> Result<Line, NoSuchLine> {
        match number {
            1 => Ok(Line::Fuel),
            2 => Ok(Line::Carbonate),
            3 => Ok(Line::Wastewater),
            4 => Ok(Line::PowerBought),
            5 => Ok(Line::HeatBought),
            6 => Ok(Line::PowerSold),
            7 => Ok(Line::HeatSold),
            _ => Err(NoSuchLine),
        }
    }
}

impl From<Line> for u8 {
    ghost from_gives = { λ line n. n ≡ line_number line };

    fn from(line: Line) -> u8 {
        line as u8 + 1
    }
}
