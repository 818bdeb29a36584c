ghost use Rattle.std.specs.Prelude.{◌≡◌};
ghost use Rattle.calendar.specs.Laws.{OneMonth, MonthsFillTheYear, LastOf2024, LastOf2023, LastOf2100, Day60};

// Has no work to do: its contract states what is proved of the calendar as a whole.
pub fn calendar_stands() -> u8
    ensures zero { result ≡ 0 }
    ensures month { OneMonth }
    ensures year { MonthsFillTheYear }
    ensures leap { LastOf2024 }
    ensures common { LastOf2023 }
    ensures century { LastOf2100 }
    ensures sixty { Day60 }
{
    0
}
