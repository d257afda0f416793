// Quaternions, and the matrices of their turns.
ghost use Rattle.std.specs.Prelude.{◌≡◌, ◌^◌, ◌≤◌, pos, ◌+ℤ◌, ◌-ℤ◌, ◌*ℤ◌, unsigned_abs};
ghost use Rattle.abuf_view.specs.Camera.{norm, row_x, row_y, row_z, quaternion_of, IsTurn};

use crate::eye::sum;
use crate::point::Point3;
use abuf_num::difference;

/// A turn, as a quaternion.
#[derive(Clone, Copy, Debug, PartialEq, Eq)]
pub(crate) struct Quaternion {
    pub(crate) a: i32,
    pub(crate) b: i32,
    pub(crate) c: i32,
    pub(crate) d: i32,
}

/// A product of two components of a turn.
fn product_of(a: i32, b: i32) -> i64
    requires a { unsigned_abs a ≤ 1024 }
    requires b { unsigned_abs b ≤ 1024 }
    ensures value { result ≡ a *ℤ b }
    ensures small { unsigned_abs result ≤ 2 ^ 20 }
{
    a as i64 * b as i64
}

/// Twice a sum.
fn twice_sum(p: i64, q: i64) -> i64
    requires p { unsigned_abs p ≤ 2 ^ 20 }
    requires q { unsigned_abs q ≤ 2 ^ 20 }
    ensures { result ≡ pos 2 *ℤ (p +ℤ q) }
{
    2 * (p + q)
}

/// Twice a difference.
fn twice_difference(p: i64, q: i64) -> i64
    requires p { unsigned_abs p ≤ 2 ^ 20 }
    requires q { unsigned_abs q ≤ 2 ^ 20 }
    ensures { result ≡ pos 2 *ℤ (p -ℤ q) }
{
    2 * (p - q)
}

/// The sum of the first two less the other two, in the orders in which the entries on the matrix's diagonal have it.
fn diagonal(p: i64, q: i64, r: i64, s: i64) -> i64
    requires p { unsigned_abs p ≤ 2 ^ 20 }
    requires q { unsigned_abs q ≤ 2 ^ 20 }
    requires r { unsigned_abs r ≤ 2 ^ 20 }
    requires s { unsigned_abs s ≤ 2 ^ 20 }
    ensures x { result ≡ p +ℤ q -ℤ r -ℤ s }
    ensures y { result ≡ p -ℤ r +ℤ q -ℤ s }
    ensures z { result ≡ p -ℤ r -ℤ s +ℤ q }
{
    difference(sum(p, q), sum(r, s))
}

impl Quaternion {
    /// The turn of these components.
    pub(crate) fn of(parts: [i32; 4]) -> Quaternion
        ensures { result ≡ quaternion_of parts }
    {
        Quaternion {
            a: parts[0],
            b: parts[1],
            c: parts[2],
            d: parts[3],
        }
    }

    /// The sum of the squares of the components.
    pub(crate) fn norm(self) -> i64
        requires { IsTurn self }
        ensures { result ≡ norm self }
    {
        sum(
            sum(
                sum(product_of(self.a, self.a), product_of(self.b, self.b)),
                product_of(self.c, self.c),
            ),
            product_of(self.d, self.d),
        )
    }

    pub(crate) fn row_x(self) -> Point3
        requires { IsTurn self }
        ensures { result ≡ row_x self }
    {
        Point3 {
            x: diagonal(
                product_of(self.a, self.a),
                product_of(self.b, self.b),
                product_of(self.c, self.c),
                product_of(self.d, self.d),
            ),
            y: twice_difference(product_of(self.b, self.c), product_of(self.a, self.d)),
            z: twice_sum(product_of(self.b, self.d), product_of(self.a, self.c)),
        }
    }

    pub(crate) fn row_y(self) -> Point3
        requires { IsTurn self }
        ensures { result ≡ row_y self }
    {
        Point3 {
            x: twice_sum(product_of(self.b, self.c), product_of(self.a, self.d)),
            y: diagonal(
                product_of(self.a, self.a),
                product_of(self.c, self.c),
                product_of(self.b, self.b),
                product_of(self.d, self.d),
            ),
            z: twice_difference(product_of(self.c, self.d), product_of(self.a, self.b)),
        }
    }

    pub(crate) fn row_z(self) -> Point3
        requires { IsTurn self }
        ensures { result ≡ row_z self }
    {
        Point3 {
            x: twice_difference(product_of(self.b, self.d), product_of(self.a, self.c)),
            y: twice_sum(product_of(self.c, self.d), product_of(self.a, self.b)),
            z: diagonal(
                product_of(self.a, self.a),
                product_of(self.d, self.d),
                product_of(self.b, self.b),
                product_of(self.c, self.c),
            ),
        }
    }
}
