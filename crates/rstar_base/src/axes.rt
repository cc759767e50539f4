//! Loops over the axes of a point.

ghost use Rattle.std.specs.Prelude.{◌≡◌, ◌<◌, ℕ, ℤ, Bool, pos, min, unsigned_abs};
ghost use Rattle.std.specs.Int.{int_min, int_max};
ghost use Rattle.rstar_base.specs.Scalars.{InRange};
ghost use Rattle.rstar_base.specs.Points.{table, all_below};
ghost use Rattle.rstar_base.specs.Sums.{sum_below, product_below};

use crate::point::{Point, RTreeNum, greatest, least};
use num_traits::{One, Zero};

/// The point with the coordinates that a function returns.
pub(crate) fn generated<P: Point, F: Fn(usize) -> P::Scalar + Drop>(f: F) -> P
    requires { (i : ℕ) → i < P.DIMENSIONS → F.pre f i }
    ensures coords { (to : ℕ → ℤ) → ((i : ℕ) (y : P.Scalar) → i < P.DIMENSIONS → F.post f i y → P.Scalar.value y ≡ to i)
        → (i : ℕ) → i < P.DIMENSIONS → P.coord result i ≡ to i }
    ensures range { ((i : ℕ) (y : P.Scalar) → i < P.DIMENSIONS → F.post f i y
        → InRange P.Scalar.low P.Scalar.high (P.Scalar.value y))
        → (i : ℕ) → i < P.DIMENSIONS → InRange P.Scalar.low P.Scalar.high (P.coord result i) }
    ensures whole { P.of_coords (table P.DIMENSIONS (P.coord result)) ≡ result }
{
    P::generate(f)
}

/// Whether a test holds on every axis. All axes are tested without a branch: which axis fails is hard to
/// predict.
pub(crate) fn every_axis<P: Point, F: Fn(usize) -> bool + Drop>(test: F) -> bool
    requires { (i : ℕ) → i < P.DIMENSIONS → F.pre test i }
    ensures { (t : ℕ → Bool) → ((i : ℕ) (b : Bool) → i < P.DIMENSIONS → F.post test i b → b ≡ t i)
        → result ≡ all_below P.DIMENSIONS t }
{
    let mut all = true;
    for i in 0..P::DIMENSIONS {
        all = all & test(i);
    }
    all
}

/// The sum of one number for each axis, clamped.
pub(crate) fn clamped_sum<P: Point, F: Fn(usize) -> P::Scalar + Drop>(term: F) -> P::Scalar
    requires { (i : ℕ) → i < P.DIMENSIONS → F.pre term i }
    ensures { (to : ℕ → ℕ)
        → ((i : ℕ) (y : P.Scalar) → i < P.DIMENSIONS → F.post term i y
        → P.Scalar.value y ≡ pos (min (to i) (unsigned_abs P.Scalar.high)))
        → P.Scalar.value result ≡ pos (min (sum_below P.DIMENSIONS to) (unsigned_abs P.Scalar.high)) }
{
    let mut sum = P::Scalar::zero();
    for i in 0..P::DIMENSIONS {
        sum = sum.clamped_add(term(i));
    }
    sum
}

/// The product of one number for each axis, clamped. None of them is negative.
pub(crate) fn clamped_product<P: Point, F: Fn(usize) -> P::Scalar + Drop>(factor: F) -> P::Scalar
    requires { (i : ℕ) → i < P.DIMENSIONS → F.pre factor i }
    ensures { (to : ℕ → ℕ)
        → ((i : ℕ) (y : P.Scalar) → i < P.DIMENSIONS → F.post factor i y
        → P.Scalar.value y ≡ pos (min (to i) (unsigned_abs P.Scalar.high)))
        → P.Scalar.value result ≡ pos (min (product_below P.DIMENSIONS to) (unsigned_abs P.Scalar.high)) }
{
    let mut product = P::Scalar::one();
    for i in 0..P::DIMENSIONS {
        product = product.clamped_mul(factor(i));
    }
    product
}

/// A copy of a point.
pub(crate) fn copied_point<P: Point>(p: &P) -> P
    ensures coords { (i : ℕ) → i < P.DIMENSIONS → P.coord result i ≡ P.coord p.now i }
    ensures range { (i : ℕ) → i < P.DIMENSIONS → InRange P.Scalar.low P.Scalar.high (P.coord result i) }
    ensures whole { P.of_coords (table P.DIMENSIONS (P.coord result)) ≡ result }
{
    generated(
        |i: usize| -> P::Scalar
            requires { i < P.DIMENSIONS }
            ensures value { P.Scalar.value result ≡ P.coord p.entry.now i }
            ensures range { InRange P.Scalar.low P.Scalar.high (P.Scalar.value result) }
        { p.nth(i).ord() },
    )
}

/// The point of the lesser coordinates of two points.
pub(crate) fn least_point<P: Point>(p: &P, q: &P) -> P
    ensures coords { (i : ℕ) → i < P.DIMENSIONS → P.coord result i ≡ int_min (P.coord p.now i) (P.coord q.now i) }
    ensures range { (i : ℕ) → i < P.DIMENSIONS → InRange P.Scalar.low P.Scalar.high (P.coord result i) }
    ensures whole { P.of_coords (table P.DIMENSIONS (P.coord result)) ≡ result }
{
    generated(
        |i: usize| -> P::Scalar
            requires { i < P.DIMENSIONS }
            ensures value { P.Scalar.value result ≡ int_min (P.coord p.entry.now i) (P.coord q.entry.now i) }
            ensures range { InRange P.Scalar.low P.Scalar.high (P.Scalar.value result) }
        { least(p.nth(i), q.nth(i)) },
    )
}

/// The point of the greater coordinates of two points.
pub(crate) fn greatest_point<P: Point>(p: &P, q: &P) -> P
    ensures coords { (i : ℕ) → i < P.DIMENSIONS → P.coord result i ≡ int_max (P.coord p.now i) (P.coord q.now i) }
    ensures range { (i : ℕ) → i < P.DIMENSIONS → InRange P.Scalar.low P.Scalar.high (P.coord result i) }
    ensures whole { P.of_coords (table P.DIMENSIONS (P.coord result)) ≡ result }
{
    generated(
        |i: usize| -> P::Scalar
            requires { i < P.DIMENSIONS }
            ensures value { P.Scalar.value result ≡ int_max (P.coord p.entry.now i) (P.coord q.entry.now i) }
            ensures range { InRange P.Scalar.low P.Scalar.high (P.Scalar.value result) }
        { greatest(p.nth(i), q.nth(i)) },
    )
}

/// The point whose coordinates are all the same.
pub(crate) fn filled<P: Point>(z: P::Scalar) -> P
    ensures coords { (i : ℕ) → i < P.DIMENSIONS → P.coord result i ≡ P.Scalar.value z }
    ensures whole { P.of_coords (table P.DIMENSIONS (P.coord result)) ≡ result }
{
    generated(
        |_i: usize| -> P::Scalar
            ensures { P.Scalar.value result ≡ P.Scalar.value z }
        { z },
    )
}
