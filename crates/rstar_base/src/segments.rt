//! The nearest point of a segment. Nothing is computed that does not fit the scalar.

ghost use Rattle.std.specs.Prelude.{◌≡◌, ◌<◌, ◌<ℤ◌, ◌+ℤ◌, ◌-ℤ◌, ◌*ℤ◌, ◌&&◌, ℕ, true, false, pos, int_lt, int_div, MatchOption};
ghost use Rattle.num_traits.specs.Laws.{between};
ghost use Rattle.rstar_base.specs.Boxes.{in_range};
ghost use Rattle.rstar_base.specs.Segments as segment;

use crate::aabb::squared_distance;
use crate::axes::{copied_point, every_axis, generated};
use crate::point::{Point, RTreeNum, known, not_above};
use num_traits::Zero;

/// The squared distance of two points, clamped.
pub(crate) fn distance_between<P: Point>(a: &P, b: &P) -> P::Scalar
    ensures { P.Scalar.value result
        ≡ pos (segment.point_apart P.Scalar.high P.DIMENSIONS (P.coord a.now) (P.coord b.now)) }
{
    squared_distance(a, a, b)
}

/// The nearer of two points; the first where both are equally near.
fn nearer<P: Point>(query_point: &P, a: &P, b: &P) -> P
    ensures { (i : ℕ) → i < P.DIMENSIONS
        → P.coord result i
        ≡ segment.nearer P.Scalar.high P.DIMENSIONS (P.coord query_point.now) (P.coord a.now) (P.coord b.now) i }
{
    if not_above(
        distance_between(a, query_point),
        distance_between(b, query_point),
    ) {
        copied_point(a)
    } else {
        copied_point(b)
    }
}

/// Whether the exact difference fits.
fn difference_fits<S: RTreeNum>(a: S, b: S) -> bool
    ensures { result ≡ in_range S.low S.high (S.value a -ℤ S.value b) }
{
    a.checked_sub(&b).is_some()
}

/// Whether the exact product fits.
fn product_fits<S: RTreeNum>(a: S, b: S) -> bool
    ensures { result ≡ in_range S.low S.high (S.value a *ℤ S.value b) }
{
    a.checked_mul(&b).is_some()
}

/// The sum plus a product, where product and sum fit.
fn add_product<S: RTreeNum>(sum: S, a: S, b: S) -> Option<S>
    ensures { MatchOption result
        ((in_range S.low S.high (S.value a *ℤ S.value b)
        && in_range S.low S.high (S.value sum +ℤ S.value a *ℤ S.value b)) ≡ false)
        (λ s. ((in_range S.low S.high (S.value a *ℤ S.value b)
        && in_range S.low S.high (S.value sum +ℤ S.value a *ℤ S.value b)) ≡ true)
        × (S.value s ≡ S.value sum +ℤ S.value a *ℤ S.value b)) }
{
    match a.checked_mul(&b) {
        Some(product) => sum.checked_add(&product),
        None => None,
    }
}

/// Whether `t` lies strictly between 0 and `len`.
fn is_inside<S: RTreeNum>(t: S, len: S) -> bool
    ensures { result ≡ (int_lt (pos 0) (S.value t) && int_lt (S.value t) (S.value len)) }
{
    !not_above(t, S::zero()) && !not_above(len, t)
}

/// A coordinate of the interior point: `from + dir * t / len`.
fn step<S: RTreeNum>(from: S, dir: S, t: S, len: S) -> S
    requires after { pos 0 <ℤ S.value t }
    requires before { S.value t <ℤ S.value len }
    requires fits { in_range S.low S.high (S.value dir *ℤ S.value t) ≡ true }
    ensures { S.value result ≡ between (S.value from +ℤ int_div (S.value dir *ℤ S.value t) (S.value len)) S.low S.high }
{
    let len = len.ord();
    from.clamped_add(dir.clamped_mul(t) / len)
}

/// The difference of two points, where it fits on every axis.
fn checked_difference<P: Point>(to: &P, from: &P) -> Option<P>
    ensures { MatchOption result
        (segment.difference_fits P.Scalar.low P.Scalar.high P.DIMENSIONS (P.coord to.now) (P.coord from.now) ≡ false)
        (λ d. (segment.difference_fits P.Scalar.low P.Scalar.high P.DIMENSIONS (P.coord to.now) (P.coord from.now)
        ≡ true) × ((i : ℕ) → i < P.DIMENSIONS
        → P.coord d i ≡ segment.direction (P.coord from.now) (P.coord to.now) i)) }
{
    let fits = every_axis::<P, _>(
        |i: usize| -> bool
            requires { i < P.DIMENSIONS }
            ensures { result
                ≡ in_range P.Scalar.low P.Scalar.high (P.coord to.entry.now i -ℤ P.coord from.entry.now i) }
        { difference_fits(to.nth(i), from.nth(i)) },
    );
    if fits {
        Some(clamped_difference(to, from))
    } else {
        None
    }
}

/// The difference of two points, clamped on every axis.
fn clamped_difference<P: Point>(to: &P, from: &P) -> P
    ensures { (i : ℕ) → i < P.DIMENSIONS
        → P.coord result i ≡ between (P.coord to.now i -ℤ P.coord from.now i) P.Scalar.low P.Scalar.high }
{
    generated(
        |i: usize| -> P::Scalar
            requires { i < P.DIMENSIONS }
            ensures { P.Scalar.value result
                ≡ between (P.coord to.entry.now i -ℤ P.coord from.entry.now i) P.Scalar.low P.Scalar.high }
        { to.nth(i).clamped_sub(from.nth(i)) },
    )
}

/// The scalar product, where each product and each running sum fits.
fn checked_dot<P: Point>(a: &P, b: &P) -> Option<P::Scalar>
    ensures { MatchOption result
        (segment.dot_fits P.Scalar.low P.Scalar.high P.DIMENSIONS (P.coord a.now) (P.coord b.now) ≡ false)
        (λ s. (segment.dot_fits P.Scalar.low P.Scalar.high P.DIMENSIONS (P.coord a.now) (P.coord b.now) ≡ true)
        × (P.Scalar.value s ≡ segment.dot P.DIMENSIONS (P.coord a.now) (P.coord b.now))) }
{
    let mut sum = P::Scalar::zero();
    for i in 0..P::DIMENSIONS {
        match add_product(sum, a.nth(i), b.nth(i)) {
            Some(more) => sum = more,
            None => return None,
        }
    }
    Some(sum)
}

/// Whether each multiple of the direction fits.
fn multiple_fits<P: Point>(dir: &P, t: P::Scalar) -> bool
    ensures { result
        ≡ segment.multiple_fits P.Scalar.low P.Scalar.high P.DIMENSIONS (P.coord dir.now) (P.Scalar.value t) }
{
    every_axis::<P, _>(
        |i: usize| -> bool
            requires { i < P.DIMENSIONS }
            ensures { result ≡ in_range P.Scalar.low P.Scalar.high (P.coord dir.entry.now i *ℤ P.Scalar.value t) }
        { product_fits(dir.nth(i), t) },
    )
}

/// The point `from + dir * t / len`, clamped on every axis.
fn stepped<P: Point>(from: &P, dir: &P, t: P::Scalar, len: P::Scalar) -> P
    requires after { pos 0 <ℤ P.Scalar.value t }
    requires before { P.Scalar.value t <ℤ P.Scalar.value len }
    requires fits { segment.multiple_fits P.Scalar.low P.Scalar.high P.DIMENSIONS (P.coord dir.now) (P.Scalar.value t)
        ≡ true }
    ensures { (i : ℕ) → i < P.DIMENSIONS
        → P.coord result i
        ≡ between (P.coord from.now i +ℤ int_div (P.coord dir.now i *ℤ P.Scalar.value t) (P.Scalar.value len))
        P.Scalar.low P.Scalar.high }
{
    generated(
        |i: usize| -> P::Scalar
            requires place { i < P.DIMENSIONS }
            requires after { pos 0 <ℤ P.Scalar.value t }
            requires before { P.Scalar.value t <ℤ P.Scalar.value len }
            requires fits { in_range P.Scalar.low P.Scalar.high (P.coord dir.now i *ℤ P.Scalar.value t) ≡ true }
            ensures { P.Scalar.value result
                ≡ between (P.coord from.entry.now i +ℤ int_div (P.coord dir.entry.now i *ℤ P.Scalar.value t)
                (P.Scalar.value len)) P.Scalar.low P.Scalar.high }
        { step(from.nth(i), dir.nth(i), t, len) },
    )
}

/// The interior point of a segment that counts for a query point, if there is one.
fn interior_point<P: Point>(from: &P, to: &P, query_point: &P) -> Option<P>
    ensures { MatchOption result
        (segment.has_interior P.Scalar.low P.Scalar.high P.DIMENSIONS (P.coord from.now) (P.coord to.now)
        (P.coord query_point.now) ≡ false)
        (λ p. (segment.has_interior P.Scalar.low P.Scalar.high P.DIMENSIONS (P.coord from.now) (P.coord to.now)
        (P.coord query_point.now) ≡ true)
        × ((i : ℕ) → i < P.DIMENSIONS
        → P.coord p i
        ≡ segment.interior P.DIMENSIONS (P.coord from.now) (P.coord to.now) (P.coord query_point.now) i)) }
{
    // These do nothing but tell that the coordinates are in their range.
    known(from);
    known(to);
    let dir = checked_difference(to, from)?;
    let offset = checked_difference(query_point, from)?;
    let t = checked_dot(&offset, &dir)?;
    let len = checked_dot(&dir, &dir)?;
    if !is_inside(t, len) {
        return None;
    }
    if !multiple_fits(&dir, t) {
        return None;
    }
    Some(stepped(from, &dir, t, len))
}

/// The first nearest of the two ends and the interior point.
pub(crate) fn nearest_of_segment<P: Point>(from: &P, to: &P, query_point: &P) -> P
    ensures { (i : ℕ) → i < P.DIMENSIONS
        → P.coord result i
        ≡ segment.nearest_of_segment P.Scalar.low P.Scalar.high P.DIMENSIONS (P.coord from.now) (P.coord to.now)
        (P.coord query_point.now) i }
{
    let end = nearer(query_point, from, to);
    match interior_point(from, to, query_point) {
        Some(inside) => nearer(query_point, &end, &inside),
        None => end,
    }
}
