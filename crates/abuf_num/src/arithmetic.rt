// Products and differences that fit.
ghost use Rattle.std.specs.Prelude.{◌≡◌, ◌+◌, ◌^◌, ◌<◌, ◌≤◌, ◌-ℤ◌, ◌*ℤ◌, unsigned_abs};

/// The product of two numbers of 64 bits, which 128 bits always hold.
#[inline(always)]
pub fn product(a: i64, b: i64) -> i128
    ensures { result ≡ a *ℤ b }
{
    a as i128 * b as i128
}

/// The difference of two numbers that are below 2^62 either way, which 64 bits always hold.
#[inline(always)]
pub fn difference(a: i64, b: i64) -> i64
    requires a { unsigned_abs a < 2 ^ 62 }
    requires b { unsigned_abs b < 2 ^ 62 }
    ensures value { result ≡ a -ℤ b }
    ensures bound { unsigned_abs result ≤ unsigned_abs a + unsigned_abs b }
{
    a - b
}
