//! Scalars and points.

ghost use Rattle.std.specs.Prelude.{◌≡◌, ◌<◌, ◌+ℤ◌, ◌-ℤ◌, ◌*ℤ◌, ◌<ℤ◌, ◌↔◌, ℕ, ℤ, List, IsTrue, pos, int_div, int_le, min, unsigned_abs, if◌then◌else◌, ◌==◌};
ghost use Rattle.std.specs.Int.{int_min, int_max};
ghost use Rattle.std.specs.Borrow.{sem, Lends};
ghost use Rattle.num_traits.specs.Laws.{between};
ghost use Rattle.rstar_base.specs.Distances.{square_apart};
ghost use Rattle.rstar_base.specs.Scalars.{InRange};
ghost use Rattle.rstar_base.specs.Sizes.{IsNarrow};
ghost use Rattle.rstar_base.specs.Points.{Callable, Made, table, IsPoint};

mod arrays;
mod integers;
mod tuples;

use crate::axes::copied_point;
use num_traits::{Bounded, CheckedAdd, CheckedMul, CheckedSub, Num, One, Signed, Zero};
use std::fmt::Debug;

/// A scalar: an integer type with a least and a greatest value.
pub trait RTreeNum: Bounded
    + Num
    + Signed
    + CheckedAdd
    + CheckedSub
    + CheckedMul
    + Copy
    + Ord
    + Debug {
    // The value that stands for an integer.
    ghost of_value: { ℤ → Self };

    /// The value itself. Its contract says that it is in the range.
    fn ord(self) -> Self
        ensures same { result ≡ self }
        ensures range { InRange Self.low Self.high (Self.value self) };

    /// Half of the exact sum, truncated toward zero.
    fn half_sum(self, other: Self) -> Self
        ensures { Self.value result ≡ int_div (Self.value self +ℤ Self.value other) (pos 2) };

    /// The exact sum, clamped to the range.
    fn clamped_add(self, other: Self) -> Self
        ensures { Self.value result ≡ between (Self.value self +ℤ Self.value other) Self.low Self.high }
    {
        let a = self.ord();
        let b = other.ord();
        match a.checked_add(&b) {
            Some(sum) => sum,
            None => if b.is_negative() {
                Self::min_value()
            } else {
                Self::max_value()
            },
        }
    }

    /// The exact difference, clamped to the range.
    fn clamped_sub(self, other: Self) -> Self
        ensures { Self.value result ≡ between (Self.value self -ℤ Self.value other) Self.low Self.high }
    {
        let a = self.ord();
        let b = other.ord();
        match a.checked_sub(&b) {
            Some(difference) => difference,
            None => if b.is_negative() {
                Self::max_value()
            } else {
                Self::min_value()
            },
        }
    }

    /// The exact product, clamped to the range.
    fn clamped_mul(self, other: Self) -> Self
        ensures { Self.value result ≡ between (Self.value self *ℤ Self.value other) Self.low Self.high }
    {
        let a = self.ord();
        let b = other.ord();
        match a.checked_mul(&b) {
            Some(product) => product,
            None => {
                if a.is_negative() == b.is_negative() {
                    Self::max_value()
                } else {
                    Self::min_value()
                }
            }
        }
    }

    /// The squared distance, clamped to the range.
    fn distance_2(self, other: Self) -> Self
        ensures { Self.value result
            ≡ pos (min (square_apart (Self.value self) (Self.value other)) (unsigned_abs Self.high)) }
    {
        // The lesser from the greater: a difference clamped at the least scalar could be too small.
        let apart = if self < other {
            other.clamped_sub(self)
        } else {
            self.clamped_sub(other)
        };
        apart.clamped_mul(apart)
    }

    ghost low_law: { Self.low <ℤ pos 0 };

    ghost high_law: { pos 0 <ℤ Self.high };

    // A value is determined by its integer.
    ghost of_value_law: { (x : Self) → of_value (Self.value x) ≡ x };

    // Each integer of the range is a value's.
    ghost value_of_law: { (z : ℤ) → InRange Self.low Self.high z → Self.value (of_value z) ≡ z };

    // A value takes little room, so that lists of them can lie in place.
    ghost narrow: { IsNarrow Self.row };
}

/// Whether `a` is at most `b`.
pub fn not_above<S: RTreeNum>(a: S, b: S) -> bool
    ensures { result ≡ int_le (S.value a) (S.value b) }
{
    a <= b
}

/// The lesser of two scalars.
pub fn least<S: RTreeNum>(a: S, b: S) -> S
    ensures value { S.value result ≡ int_min (S.value a) (S.value b) }
    ensures range { InRange S.low S.high (S.value result) }
{
    if b < a { b.ord() } else { a.ord() }
}

/// The greater of two scalars.
pub fn greatest<S: RTreeNum>(a: S, b: S) -> S
    ensures value { S.value result ≡ int_max (S.value a) (S.value b) }
    ensures range { InRange S.low S.high (S.value result) }
{
    if b < a { a.ord() } else { b.ord() }
}

/// A point: one integer for each axis.
pub trait Point: Clone + PartialEq + Debug + Drop {
    /// The type of the coordinates.
    type Scalar: RTreeNum;

    /// The number of axes.
    const DIMENSIONS: usize;

    ghost DIMENSIONS: { ℕ };

    // The coordinate on an axis.
    ghost coord: { Self → ℕ → ℤ };

    // The point with these coordinates.
    ghost of_coords: { List ℤ → Self };

    // The point with another coordinate on an axis.
    ghost with: { Self → ℕ → Self.Scalar → Self };

    /// The point with the coordinates `generator(0)`, `generator(1)`, .., called in this order.
    fn generate<F: FnMut(usize) -> Self::Scalar>(generator: F) -> Self
        requires { Callable F.step F.pre generator DIMENSIONS }
        ensures made { Made F.step Self.Scalar.value (coord result) generator DIMENSIONS }
        ensures whole { of_coords (table DIMENSIONS (coord result)) ≡ result };

    /// The coordinate on an axis below `DIMENSIONS`.
    fn nth(&self, index: usize) -> Self::Scalar
        requires { index < DIMENSIONS }
        ensures value { Self.Scalar.value result ≡ coord self.now index }
        ensures own { of_coords (table DIMENSIONS (coord self.now)) ≡ self.now };

    /// A mutable borrow of the coordinate on an axis.
    fn nth_mut(&mut self, index: usize) -> &mut Self::Scalar
        requires { index < DIMENSIONS }
        ensures* writes_back { sem 𝓛 (Lends Self.row Self.Scalar.row self.entry result (with self.old index)) }
        ensures value { Self.Scalar.value result.now ≡ coord self.old index }
        ensures own { of_coords (table DIMENSIONS (coord self.old)) ≡ self.old };

    // Each list of coordinates in the range is a point's.
    ghost coords_of_law: { (zs : List ℤ) → IsPoint Self.Scalar.low Self.Scalar.high DIMENSIONS zs
        → table DIMENSIONS (coord (of_coords zs)) ≡ zs };

    // A write changes the coordinate on that axis and no other.
    ghost with_law: { (p : Self) (i : ℕ) (s : Self.Scalar) (j : ℕ) → of_coords (table DIMENSIONS (coord p)) ≡ p
        → i < DIMENSIONS → j < DIMENSIONS
        → coord (with p i s) j ≡ (if j == i then Self.Scalar.value s else coord p j) };

    // Equal points have equal coordinates.
    ghost same_law: { (p q : Self) → IsTrue (Self.eq p q) → table DIMENSIONS (coord p) ≡ table DIMENSIONS (coord q) };

    // Points are equal exactly where all coordinates are.
    ghost eq_law: { (p q : Self) → of_coords (table DIMENSIONS (coord p)) ≡ p
        → of_coords (table DIMENSIONS (coord q)) ≡ q
        → IsTrue (Self.eq p q) ↔ (table DIMENSIONS (coord p) ≡ table DIMENSIONS (coord q)) };
}

/// Does nothing. Its contract says that the point's coordinates are in the range and, with an axis,
/// determine it.
pub fn known<P: Point>(p: &P)
    ensures range { IsPoint P.Scalar.low P.Scalar.high P.DIMENSIONS (table P.DIMENSIONS (P.coord p.now)) }
    ensures own { 0 < P.DIMENSIONS → P.of_coords (table P.DIMENSIONS (P.coord p.now)) ≡ p.now }
{
    in_range(p);
    if P::DIMENSIONS > 0 {
        let _first = p.nth(0);
    }
}

// Does nothing but tell that the coordinates are in the range.
fn in_range<P: Point>(p: &P)
    ensures { IsPoint P.Scalar.low P.Scalar.high P.DIMENSIONS (table P.DIMENSIONS (P.coord p.now)) }
{
    let _copy = copied_point(p);
}
