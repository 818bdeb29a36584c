ghost use Rattle.std.specs.Prelude.{◌≡◌};
ghost use Rattle.frame.specs.Format.{year_named, day_named, share_named};
ghost use Rattle.frame.specs.Views.{parts_of};

// What a whole frame holds, byte for byte: what the kind, the item and the tier letter mean is not the frame's to say.
#[derive(Clone, Copy)]
pub struct Fields<'f> {
    pub when: [u8; 4],
    pub kind: u8,
    pub item: u8,
    pub tier: u8,
    pub readings: &'f [u8],
    pub share: Option<[u8; 2]>,

    // Empty where the frame has none: a field of the name is never empty, so an Option would say it twice.
    pub name: &'f [u8],
}

impl Fields<'_> {
    // The year that the frame names, lawful or not.
    pub fn year(self) -> u16
        ensures { result ≡ year_named (parts_of self.entry) }
    {
        let [high, low, _, _] = self.when;
        u16::from_be_bytes([high, low])
    }

    // The day that the frame names, lawful or not.
    pub fn day(self) -> u16
        ensures { result ≡ day_named (parts_of self.entry) }
    {
        let [_, _, high, low] = self.when;
        u16::from_be_bytes([high, low])
    }

    // The share in thousandths, where the frame has one.
    pub fn share(self) -> Option<u16>
        ensures { result ≡ share_named (parts_of self.entry) }
    {
        self.share.map(u16::from_be_bytes)
    }
}
