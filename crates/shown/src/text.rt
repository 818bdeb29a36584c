use reading::{Quantities, ReadingSet};
use std::fmt;

// What there is, or a dash.
#[derive(Drop)]
pub struct OrDash<T>(pub Option<T>);

impl<T: fmt::Display> fmt::Display for OrDash<T> {
    fn fmt<W: fmt::Write>(&self, f: &mut fmt::Formatter<W>) -> fmt::Result {
        match &self.0 {
            Some(shown) => write!(f, "{shown}"),
            None => f.write_str("-"),
        }
    }
}

// Bytes in hexadecimal, or a dash for none.
#[derive(Drop)]
pub struct Hex<'b>(pub &'b [u8]);

impl fmt::Display for Hex<'_> {
    fn fmt<W: fmt::Write>(&self, f: &mut fmt::Formatter<W>) -> fmt::Result {
        if self.0.is_empty() {
            return f.write_str("-");
        }
        for byte in self.0 {
            write!(f, "{byte:02X}")?;
        }
        Ok(())
    }
}

// The bytes of readings, with a comma between one and the next.
#[derive(Drop)]
pub struct Bits(pub ReadingSet);

impl fmt::Display for Bits {
    fn fmt<W: fmt::Write>(&self, f: &mut fmt::Formatter<W>) -> fmt::Result {
        let bytes = self.0.bytes();
        for (i, reading) in bytes.as_slice().chunks_exact(4).enumerate() {
            if i > 0 {
                f.write_str(",")?;
            }
            write!(f, "{}", Hex(reading))?;
        }
        Ok(())
    }
}

// Quantities, with a comma between one and the next.
#[derive(Drop)]
pub struct Whole(pub Quantities);

impl fmt::Display for Whole {
    fn fmt<W: fmt::Write>(&self, f: &mut fmt::Formatter<W>) -> fmt::Result {
        match self.0 {
            Quantities::Amount(amount) => write!(f, "{amount}"),
            Quantities::Water(water) => write!(f, "{},{}", water.kilograms, water.hundredths),
            Quantities::Steam(steam) => write!(f, "{},{}", steam.kilograms, steam.kilopascals),
            Quantities::Wastewater(water) => write!(
                f,
                "{},{},{},{},{}",
                water.cubic_metres, water.inlet, water.outlet, water.sludge, water.recovered
            ),
        }
    }
}
