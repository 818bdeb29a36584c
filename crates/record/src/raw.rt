use reading::ReadingSet;

// A record in plain numbers, as a host states it; nothing of it need be lawful.
#[derive(Clone, Copy, PartialEq, Debug)]
pub struct RawRecord {
    pub year: u16,
    pub day: u16,
    pub kind: u8,
    pub item: u8,
    pub tier: char,
    pub share: Option<u16>,
    pub readings: ReadingSet,
}
