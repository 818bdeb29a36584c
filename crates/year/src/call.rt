// A call of the book, as a host makes it; an offering names its source by its place, since two offerings may ask one source.
#[derive(Clone, Copy)]
pub enum Call<'f> {
    Offer(&'f [u8], usize),
    Withdraw(usize),
    Hold(u8),
    Release(u8),
    Close(u8),
}
