// Products that do not wrap.
ghost use Rattle.std.specs.Prelude.{◌≡◌, ◌*◌};

// The product of two numbers.
pub fn product(a: u32, b: u32) -> u64
    ensures { result ≡ a * b }
{
    u64::from(a) * u64::from(b)
}
