ghost use Rattle.std.specs.Prelude.{◌≡◌};
ghost use Rattle.steam.specs.Laws.{Table, OneValueAtEach, SameValue, AtARow, Bounded, Whole, Middle};

// Has no work to do: its contract states what is proved of the table and of every enthalpy.
pub fn steam_stands() -> u8
    ensures zero { result ≡ 0 }
    ensures rows { Table }
    ensures value { OneValueAtEach }
    ensures same { SameValue }
    ensures at { AtARow }
    ensures bounds { Bounded }
    ensures first { Whole 1 251380 }
    ensures thousand { Whole 1000 277700 }
    ensures last { Whole 22000 219250 }
    ensures middle { Middle }
{
    0
}
