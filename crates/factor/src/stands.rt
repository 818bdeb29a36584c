ghost use Rattle.std.specs.Prelude.{◌≡◌};
ghost use Rattle.factor.specs.Laws.{AnswerIsFirst, FirstAnswers, NoAnswer, NoneAnswers, PrintedWhole, RowsLimited, PrintedLimited};

// Has no work to do: its contract states what is proved of the plant's rows and of the printed table as a whole.
pub fn factors_stand() -> u8
    ensures zero { result ≡ 0 }
    ensures first { AnswerIsFirst }
    ensures answers { FirstAnswers }
    ensures nothing { NoAnswer }
    ensures none { NoneAnswers }
    ensures printed { PrintedWhole }
    ensures rows { RowsLimited }
    ensures table { PrintedLimited }
{
    0
}
