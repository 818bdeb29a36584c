use book::Total;
use journal::Booked;
use months::Figure;
use std::fmt;

// What a call is answered, with the numbers that it named, to be printed.
#[derive(Drop)]
pub enum Told {
    Row(usize),
    Taken(Booked),
    Withdrawn(Booked),
    Held(u8),
    Released(u8),
    Closed(u8),
    Line { month: u8, line: u8, figure: Figure },
    YearLine { line: u8, figure: Figure },
    Total(Total),
}

impl fmt::Display for Told {
    fn fmt<W: fmt::Write>(&self, f: &mut fmt::Formatter<W>) -> fmt::Result {
        match self {
            Told::Row(number) => write!(f, "row {number}"),
            Told::Taken(booked) => write!(f, "taken {} {}", booked.number, booked.grams),
            Told::Withdrawn(booked) => write!(f, "withdrawn {} {}", booked.number, booked.grams),
            Told::Held(month) => write!(f, "held {month}"),
            Told::Released(month) => write!(f, "released {month}"),
            Told::Closed(month) => write!(f, "closed {month}"),
            Told::Line {
                month,
                line,
                figure,
            } => { write!(f, "line {month} {line} {} {}", figure.count, figure.grams) }
            Told::YearLine { line, figure } => {
                write!(f, "yearline {line} {} {}", figure.count, figure.grams)
            }
            Told::Total(total) => write!(f, "total {} {}", total.count, total.grams),
        }
    }
}
