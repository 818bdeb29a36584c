// How many entries stand in a year, and their grams: those of lines 1 to 5 less those of lines 6 and 7.
#[derive(Clone, Copy, PartialEq, Eq, Debug)]
pub struct Total {
    pub count: u32,
    pub grams: i64,
}
