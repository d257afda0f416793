// Division by one number many times over, without a division.
ghost use Rattle.std.specs.Prelude.{◌≡◌, ◌/◌, ◌<◌};

/// A divisor, with the number that multiplies in its place: one division makes it, and each quotient is then a product.
#[derive(Clone, Copy)]
pub struct Reciprocal {
    pub divisor: u64,
    inverse: u64,
    ghost some: { 0 < divisor },
    ghost is: { inverse ≡ 18446744073709551615 / divisor },
}

impl Reciprocal {
    pub fn of(divisor: u64) -> Reciprocal
        requires { 0 < divisor }
        ensures { result.divisor ≡ divisor }
    {
        Reciprocal {
            divisor,
            inverse: u64::MAX / divisor,
        }
    }

    /// The quotient, rounded down. The product is it or one less, and the rest says which.
    #[inline(always)]
    pub fn quotient(&self, n: u64) -> u64
        ensures { result ≡ n / self.now.divisor }
    {
        let estimate = (n as u128 * self.inverse as u128 >> 64) as u64;
        let rest = n - estimate * self.divisor;
        if rest >= self.divisor {
            estimate + 1
        } else {
            estimate
        }
    }
}
