ghost use Rattle.std.specs.Prelude.{◌≡◌};
ghost use Rattle.record_laws.specs.Laws.{WrittenReads, ReadWrites, ReadLawful};

// The two ways as theorems over every record, name and byte string.
pub fn records_stand() -> u8
    ensures zero { result ≡ 0 }
    ensures written { WrittenReads }
    ensures read { ReadWrites }
    ensures lawful { ReadLawful }
{
    0
}
