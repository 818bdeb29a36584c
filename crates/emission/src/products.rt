ghost use Rattle.std.specs.Prelude.{◌≡◌, ◌*◌};

// Products in a type that holds every one of them; two functions, since a trait over both widths would be longer than they are.
pub(crate) fn product(a: u32, b: u32) -> u64
    ensures { result ≡ a * b }
{
    u64::from(a) * u64::from(b)
}

pub(crate) fn wide_product(a: u64, b: u64) -> u128
    ensures { result ≡ a * b }
{
    u128::from(a) * u128::from(b)
}
