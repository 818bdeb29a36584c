ghost use Rattle.std.specs.Prelude.{◌≡◌, ◌+◌, false, [], ◌∷◌, length, take, drop, ◌⊎◌, MatchResult, ◌==◌, nat_eq, slice_index};
ghost use Rattle.reading.specs.Fields.{Meaning};
ghost use Rattle.case_input.specs.Reads.{left_of, Past, EndsBefore, NoLetter, two_at, four, row_of};

use crate::fault::InputFault;
use factor::PlantRow;

// Most rows that a plant list has.
pub const ROWS: usize = 8;

// To make the memory of a plant list of, which has a fixed size: a row that never answers.
pub const NO_ROW: PlantRow = PlantRow {
    class: 0,
    item: 0,
    tier: '-',
    first_year: 0,
    last_year: 0,
    rate: 0,
    share: 0,
};

// The bytes that are left of the input.
#[derive(Drop)]
pub struct Input<'i> {
    rest: &'i [u8],
}

impl<'i> Input<'i> {
    pub fn new(bytes: &'i [u8]) -> Input<'i>
        ensures { left_of result ≡ bytes.now }
    {
        Input { rest: bytes }
    }

    pub fn len(&self) -> usize
        ensures { result ≡ length (left_of self.now) }
    {
        self.rest.len()
    }

    pub fn is_empty(&self) -> bool
        ensures { result ≡ (length (left_of self.now) == 0) }
    {
        self.rest.is_empty()
    }

    // Whether this byte comes next.
    pub fn is_at(&self, byte: u8) -> bool
        ensures { result ≡ elim (left_of self.now) [ [] ↦ false | first ∷ _ ↦ nat_eq first byte ] }
    {
        self.rest.first().is_some_and(|first| *first == byte)
    }

    pub fn bytes(&mut self, n: usize) -> Result<&'i [u8], InputFault>
        ensures { MatchResult result (λ b. (b.now ≡ take n (left_of self.old)) × Past n (left_of self.old) (left_of self.new)) (EndsBefore n (left_of self.old)) }
    {
        let (bytes, rest) = self.rest.split_at_checked(n).ok_or(InputFault::CutOff)?;
        self.rest = rest;
        Ok(bytes)
    }

    // The next N bytes, by value.
    pub fn array<const N: usize>(&mut self) -> Result<[u8; N], InputFault>
        ensures { MatchResult result (λ b. (b ≡ take N (left_of self.old)) × Past N (left_of self.old) (left_of self.new)) (EndsBefore N (left_of self.old)) }
    {
        let (first, rest) = self
            .rest
            .split_first_chunk::<N>()
            .ok_or(InputFault::CutOff)?;
        self.rest = rest;
        Ok(*first)
    }

    pub fn byte(&mut self) -> Result<u8, InputFault>
        ensures { MatchResult result (λ b. (b ≡ slice_index (left_of self.old) 0) × Past 1 (left_of self.old) (left_of self.new)) (EndsBefore 1 (left_of self.old)) }
    {
        Ok(u8::from_be_bytes(self.array()?))
    }

    pub fn word(&mut self) -> Result<u16, InputFault>
        ensures { MatchResult result (λ n. (n ≡ two_at (left_of self.old) 0) × Past 2 (left_of self.old) (left_of self.new)) (EndsBefore 2 (left_of self.old)) }
    {
        Ok(u16::from_be_bytes(self.array()?))
    }

    pub fn double_word(&mut self) -> Result<u32, InputFault>
        ensures { MatchResult result (λ n. (n ≡ four (left_of self.old)) × Past 4 (left_of self.old) (left_of self.new)) (EndsBefore 4 (left_of self.old)) }
    {
        Ok(u32::from_be_bytes(self.array()?))
    }

    pub fn reading(&mut self) -> Result<f32, InputFault>
        ensures { MatchResult result (λ x. Meaning (four (left_of self.old)) x × Past 4 (left_of self.old) (left_of self.new)) (EndsBefore 4 (left_of self.old)) }
    {
        Ok(reading::from_bytes(self.array()?))
    }

    pub fn letter(&mut self) -> Result<char, InputFault>
        ensures { MatchResult result (λ c. (c ≡ four (left_of self.old)) × Past 4 (left_of self.old) (left_of self.new)) (λ e. EndsBefore 4 (left_of self.old) e ⊎ NoLetter (left_of self.old) e) }
    {
        char::from_u32(self.double_word()?).ok_or(InputFault::NoCharacter)
    }

    // A frame after its length.
    pub fn frame(&mut self) -> Result<&'i [u8], InputFault>
        ensures { MatchResult result (λ f. (f.now ≡ take (two_at (left_of self.old) 0) (drop 2 (left_of self.old))) × Past (2 + two_at (left_of self.old) 0) (left_of self.old) (left_of self.new)) (EndsBefore (2 + two_at (left_of self.old) 0) (left_of self.old)) }
    {
        let length = self.word()?;
        self.bytes(usize::from(length))
    }

    pub fn row(&mut self) -> Result<PlantRow, InputFault>
        ensures { MatchResult result (λ r. (r ≡ row_of (left_of self.old)) × Past 16 (left_of self.old) (left_of self.new)) (λ e. EndsBefore 16 (left_of self.old) e ⊎ NoLetter (drop 2 (left_of self.old)) e) }
    {
        Ok(PlantRow {
            class: self.byte()?,
            item: self.byte()?,
            tier: self.letter()?,
            first_year: self.word()?,
            last_year: self.word()?,
            rate: self.double_word()?,
            share: self.word()?,
        })
    }
}
