ghost use Rattle.std.specs.Prelude.{◌≡◌, ◌↔◌, IsTrue, MatchResult};
ghost use Rattle.std.specs.Str.Parse.{IsNumeral, digits_value};
ghost use Rattle.commands.specs.Words.{HexWord, NoBytes, NoNumber};

use crate::fault::{Fault, Reason};
use hex::FromHexError;
use std::alloc::{AllocError, Global};

// Whether a word is decimal digits and nothing else.
fn is_numeral(word: &str) -> bool
    ensures { IsTrue result ↔ IsNumeral 10 word.now }
{
    for byte in word.as_bytes() {
        if !byte.is_ascii_digit() {
            return false;
        }
    }
    !word.is_empty()
}

// A decimal number of 32 bits.
pub fn number(word: &str) -> Result<u32, Reason>
    ensures { MatchResult result (λ n. IsNumeral 10 word.now × (n ≡ digits_value 10 word.now)) (NoNumber word.now) }
{
    if !is_numeral(word) {
        return Err(Reason::NotANumber);
    }
    word.parse::<u32>().ok().ok_or(Reason::NumberTooLarge)
}

// A number that a smaller type holds.
pub(crate) fn byte(word: &str) -> Result<u8, Reason> {
    u8::try_from(number(word)?).map_err(|_| Reason::NumberTooLarge)
}

pub(crate) fn short(word: &str) -> Result<u16, Reason> {
    u16::try_from(number(word)?).map_err(|_| Reason::NumberTooLarge)
}

// The one character of a word.
pub(crate) fn letter(word: &str) -> Result<char, Reason> {
    let mut letters = word.chars();
    let letter = letters.next().ok_or(Reason::NotALetter)?;
    match letters.next() {
        Some(_) => Err(Reason::NotALetter),
        None => Ok(letter),
    }
}

// Bytes in hexadecimal; a dash means none.
pub fn bytes(heap: Global, word: &str) -> Result<Vec<u8>, Fault>
    ensures { MatchResult result (λ b. HexWord word.now b.items) (NoBytes word.now) }
{
    if word == "-" {
        return Ok(Vec::new(heap));
    }
    match hex::decode(heap, word) {
        Ok(bytes) => Ok(bytes),
        Err(FromHexError::OutOfMemory) => Err(Fault::Memory(AllocError)),
        Err(FromHexError::OddLength) => Err(Fault::Reason(Reason::NotHexadecimal)),
        Err(FromHexError::InvalidStringLength) => Err(Fault::Reason(Reason::NotHexadecimal)),
        Err(FromHexError::InvalidHexCharacter { .. }) => {
            Err(Fault::Reason(Reason::NotHexadecimal))
        }
    }
}
