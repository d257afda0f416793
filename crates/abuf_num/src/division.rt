// Division that rounds.
ghost use Rattle.std.specs.Prelude.{◌≡◌, ◌<◌, ◌^◌, ◌↔◌, pos, ◌<ℤ◌, unsigned_abs, IsTrue};
ghost use Rattle.abuf_num.specs.Division.{floor_div, round_div};

/// The number is below 2^63 either way.
fn is_short(n: i128) -> bool
    ensures { IsTrue result ↔ (unsigned_abs n < 2 ^ 63) }
{
    -9223372036854775808 < n && n < 9223372036854775808
}

/// `floor_div` in 64 bits.
fn short_floor_div(a: i64, b: i64) -> i64
    requires { pos 0 <ℤ b }
    ensures { result ≡ floor_div a b }
{
    a.div_euclid(b)
}

/// `floor_div` in 128 bits.
fn long_floor_div(n: i128, m: i128) -> i128
    requires { pos 0 <ℤ m }
    ensures { result ≡ floor_div n m }
{
    n.div_euclid(m)
}

/// The greatest whole number that is not above `n / m`. Numbers below 2^63 are divided in 64 bits, which is several times
/// faster.
pub fn floor_div(n: i128, m: i128) -> i128
    requires { pos 0 <ℤ m }
    ensures { result ≡ floor_div n m }
{
    if is_short(n) && is_short(m) {
        short_floor_div(n as i64, m as i64) as i128
    } else {
        long_floor_div(n, m)
    }
}

/// The whole number nearest to `n / m`, halves away from zero.
pub fn round_div(n: i128, m: i128) -> i128
    requires { pos 0 <ℤ m }
    ensures { result ≡ round_div n m }
{
    let quotient = n / m;
    let rest = (n % m).abs();
    if rest < m - rest {
        quotient
    } else if n < 0 {
        quotient - 1
    } else {
        quotient + 1
    }
}
