//! Axis-parallel bounding boxes.

ghost use Rattle.std.specs.Prelude.{◌≡◌, ◌<◌, ◌&&◌, ◌+ℤ◌, ◌-ℤ◌, ℕ, List, ⊤, IsTrue, int_div, int_le, map, pos, min, unsigned_abs};
ghost use Rattle.num_traits.specs.Laws.{between};
ghost use Rattle.rstar_base.specs.BoxData.{box_data};
ghost use Rattle.rstar_base.specs.Hulls.{hull};
ghost use Rattle.rstar_base.specs.Distances.{square_apart, nearest_on_axis, nearest_point, box_distance, near_face, far_face, box_min_max};
ghost use Rattle.rstar_base.specs.Sums.{sum_below, product_below};
ghost use Rattle.rstar_base.specs.Measures.{extent};
ghost use Rattle.std.specs.Borrow.{Bor};
ghost use Rattle.std.specs.Iterator.{Drains, IsFiniteIterable};
ghost use Rattle.rstar_base.specs.Boxes.{between_corners, box_of_corners, is_upright, box_contains_point, IsBox};
ghost use Rattle.rstar_base.specs.Points.{table, all_below};
ghost use Rattle.rstar_base.specs.Rectangles.{box_or_empty};

mod gaps;

use crate::axes::{
    clamped_product, clamped_sum, copied_point, every_axis, filled, generated, greatest_point,
    least_point,
};
use crate::envelope::Envelope;
use crate::point::{Point, RTreeNum, greatest, least, not_above};
use num_traits::{Bounded, Zero};
use std::alloc::AllocError;
use std::marker::Model;

/// Whether `lower <= above` and `below <= upper` on every axis.
pub(crate) fn bound<P: Point>(lower: &P, upper: &P, above: &P, below: &P) -> bool
    ensures { result
        ≡ all_below P.DIMENSIONS
        (λ i. int_le (P.coord lower.now i) (P.coord above.now i)
        && int_le (P.coord below.now i) (P.coord upper.now i)) }
{
    every_axis::<P, _>(
        |i: usize| -> bool
            requires { i < P.DIMENSIONS }
            ensures { result
                ≡ (int_le (P.coord lower.entry.now i) (P.coord above.entry.now i)
                && int_le (P.coord below.entry.now i) (P.coord upper.entry.now i)) }
        { not_above(lower.nth(i), above.nth(i)) & not_above(below.nth(i), upper.nth(i)) },
    )
}

/// Whether `lower <= upper` on every axis. `AABB::from_bounds` asks that of its corners.
pub fn upright<P: Point>(lower: &P, upper: &P) -> bool
    ensures { result ≡ is_upright P.DIMENSIONS (P.coord lower.now) (P.coord upper.now) }
{
    every_axis::<P, _>(
        |i: usize| -> bool
            requires { i < P.DIMENSIONS }
            ensures { result ≡ int_le (P.coord lower.entry.now i) (P.coord upper.entry.now i) }
        { not_above(lower.nth(i), upper.nth(i)) },
    )
}

/// The squared distance from a point to the box between two corners, clamped to the scalar.
pub(crate) fn squared_distance<P: Point>(lower: &P, upper: &P, point: &P) -> P::Scalar
    ensures { P.Scalar.value result
        ≡ pos (min (sum_below P.DIMENSIONS
        (λ i. square_apart (P.coord point.now i)
        (nearest_on_axis (P.coord lower.now i, P.coord upper.now i) (P.coord point.now i))))
        (unsigned_abs P.Scalar.high)) }
{
    clamped_sum::<P, _>(
        |i: usize| -> P::Scalar
            requires { i < P.DIMENSIONS }
            ensures { P.Scalar.value result
                ≡ pos (min (square_apart (P.coord point.entry.now i)
                (nearest_on_axis (P.coord lower.entry.now i, P.coord upper.entry.now i) (P.coord point.entry.now i)))
                (unsigned_abs P.Scalar.high)) }
        {
            let at = point.nth(i);
            at.distance_2(least(upper.nth(i), greatest(lower.nth(i), at)))
        },
    )
}

/// The point nearest to a point, of the box between two corners.
pub(crate) fn nearest_between<P: Point>(lower: &P, upper: &P, point: &P) -> P
    ensures { (i : ℕ) → i < P.DIMENSIONS
        → P.coord result i ≡ nearest_on_axis (P.coord lower.now i, P.coord upper.now i) (P.coord point.now i) }
{
    generated(
        |i: usize| -> P::Scalar
            requires { i < P.DIMENSIONS }
            ensures { P.Scalar.value result
                ≡ nearest_on_axis (P.coord lower.entry.now i, P.coord upper.entry.now i) (P.coord point.entry.now i) }
        { least(upper.nth(i), greatest(lower.nth(i), point.nth(i))) },
    )
}

/// The point moved up on every axis, clamped to the scalar.
fn moved_up<P: Point>(p: &P, by: P::Scalar) -> P
    ensures { (i : ℕ) → i < P.DIMENSIONS
        → P.coord result i ≡ between (P.coord p.now i +ℤ P.Scalar.value by) P.Scalar.low P.Scalar.high }
{
    generated(
        |i: usize| -> P::Scalar
            requires { i < P.DIMENSIONS }
            ensures { P.Scalar.value result
                ≡ between (P.coord p.entry.now i +ℤ P.Scalar.value by) P.Scalar.low P.Scalar.high }
        { p.nth(i).clamped_add(by) },
    )
}

/// The point moved down on every axis, clamped to the scalar.
fn moved_down<P: Point>(p: &P, by: P::Scalar) -> P
    ensures { (i : ℕ) → i < P.DIMENSIONS
        → P.coord result i ≡ between (P.coord p.now i -ℤ P.Scalar.value by) P.Scalar.low P.Scalar.high }
{
    generated(
        |i: usize| -> P::Scalar
            requires { i < P.DIMENSIONS }
            ensures { P.Scalar.value result
                ≡ between (P.coord p.entry.now i -ℤ P.Scalar.value by) P.Scalar.low P.Scalar.high }
        { p.nth(i).clamped_sub(by) },
    )
}

/// The squared distances from a coordinate to the nearer and to the farther of two faces, clamped.
fn faces<S: RTreeNum>(lower: S, upper: S, at: S) -> (S, S)
    ensures near { S.value result.0
        ≡ pos (min (near_face (S.value lower, S.value upper) (S.value at)) (unsigned_abs S.high)) }
    ensures far { S.value result.1
        ≡ pos (min (far_face (S.value lower, S.value upper) (S.value at)) (unsigned_abs S.high)) }
{
    let a = at.distance_2(lower);
    let b = at.distance_2(upper);
    (least(a, b), greatest(a, b))
}

/// MINMAXDIST: the least, over the axes, of the nearer face on that axis and the farther faces on the
/// others. It is 0 without an axis.
pub(crate) fn min_max_distance<P: Point>(lower: &P, upper: &P, point: &P) -> P::Scalar
    ensures { P.Scalar.value result
        ≡ pos (box_min_max P.Scalar.high (between_corners P.DIMENSIONS (P.coord lower.now) (P.coord upper.now))
        (table P.DIMENSIONS (P.coord point.now))) }
{
    let mut best = P::Scalar::max_value();
    // The farther faces of the axes so far.
    let mut sum = P::Scalar::zero();
    for i in 0..P::DIMENSIONS {
        let (near, far) = faces(lower.nth(i), upper.nth(i), point.nth(i));
        best = least(best.clamped_add(far), sum.clamped_add(near));
        sum = sum.clamped_add(far);
    }
    if P::DIMENSIONS == 0 { sum } else { best }
}

/// The extent from `lower` to `upper`, clamped; 0 where `upper` is below `lower`.
fn extent_between<S: RTreeNum>(lower: S, upper: S) -> S
    ensures { S.value result ≡ pos (min (extent (S.value lower, S.value upper)) (unsigned_abs S.high)) }
{
    if not_above(lower, upper) {
        upper.clamped_sub(lower)
    } else {
        S::zero()
    }
}

/// The product of the extents between two corners, clamped.
pub(crate) fn extent_area<P: Point>(lower: &P, upper: &P) -> P::Scalar
    ensures { P.Scalar.value result
        ≡ pos (min (product_below P.DIMENSIONS (λ i. extent (P.coord lower.now i, P.coord upper.now i)))
        (unsigned_abs P.Scalar.high)) }
{
    clamped_product::<P, _>(
        |i: usize| -> P::Scalar
            requires { i < P.DIMENSIONS }
            ensures { P.Scalar.value result
                ≡ pos (min (extent (P.coord lower.entry.now i, P.coord upper.entry.now i))
                (unsigned_abs P.Scalar.high)) }
        { extent_between(lower.nth(i), upper.nth(i)) },
    )
}

/// The sum of the extents between two corners, clamped.
pub(crate) fn extent_perimeter<P: Point>(lower: &P, upper: &P) -> P::Scalar
    ensures { P.Scalar.value result
        ≡ pos (min (sum_below P.DIMENSIONS (λ i. extent (P.coord lower.now i, P.coord upper.now i)))
        (unsigned_abs P.Scalar.high)) }
{
    clamped_sum::<P, _>(
        |i: usize| -> P::Scalar
            requires { i < P.DIMENSIONS }
            ensures { P.Scalar.value result
                ≡ pos (min (extent (P.coord lower.entry.now i, P.coord upper.entry.now i))
                (unsigned_abs P.Scalar.high)) }
        { extent_between(lower.nth(i), upper.nth(i)) },
    )
}

/// The point halfway between two corners, each half truncated toward zero.
pub(crate) fn middle_point<P: Point>(lower: &P, upper: &P) -> P
    ensures { (i : ℕ) → i < P.DIMENSIONS
        → P.coord result i ≡ int_div (P.coord lower.now i +ℤ P.coord upper.now i) (pos 2) }
{
    generated(
        |i: usize| -> P::Scalar
            requires { i < P.DIMENSIONS }
            ensures { P.Scalar.value result ≡ int_div (P.coord lower.entry.now i +ℤ P.coord upper.entry.now i) (pos 2) }
        { lower.nth(i).half_sum(upper.nth(i)) },
    )
}

/// Whether two points have the same coordinates.
pub(crate) fn same_coordinates<P: Point>(p: &P, q: &P) -> bool
    ensures { result
        ≡ box_contains_point (between_corners P.DIMENSIONS (P.coord p.now) (P.coord p.now))
        (table P.DIMENSIONS (P.coord q.now)) }
{
    bound(p, p, q, q)
}

/// An axis-parallel bounding box. On every axis it has the numbers from `lower` to `upper`, both included.
///
/// The empty box has the greatest scalars as its lower corner and the least as its upper one. With no axis
/// there is one box, which is not empty. Distances are squared; measures are exact and clamped to the
/// greatest scalar. A call costs one pass over the axes and takes no memory.
///
/// ```rust
/// fn boxed<P: Point + Copy>(lower: P, upper: P) -> AABB<P> {
///     if upright(&lower, &upper) {
///         AABB::from_bounds(lower, upper)
///     } else {
///         AABB::new_empty()
///     }
/// }
/// ```
/// *`crates/rstar_base_vectors/src/boxes.rt`*
#[derive(Copy, Debug, PartialEq, Eq, PartialOrd, Ord, Hash, Drop)]
pub struct AABB<P: Point> {
    lower: P,
    upper: P,
}

impl<P: Point> Model for AABB<P> {
    ghost use Rattle.std.specs.Prelude.{ℕ, ℤ, List, map, ◌≡◌};
    ghost use Rattle.std.proofs.Common.{refl};
    ghost use Rattle.rstar_base.specs.Points.{table};
    ghost use Rattle.rstar_base.specs.laws.PointLemmas.{table-firsts, table-seconds};
    ghost use Rattle.rstar_base.specs.Boxes.{between_corners, box_of_corners, is_upright, IsBox};

    ghost Value = { List (ℤ × ℤ) };

    ghost view = { λ b. between_corners P.DIMENSIONS (P.coord b.lower) (P.coord b.upper) };

    ghost invariant = { λ b. (P.of_coords (table P.DIMENSIONS (P.coord b.lower)) ≡ b.lower)
        × (P.of_coords (table P.DIMENSIONS (P.coord b.upper)) ≡ b.upper)
        × IsBox P.Scalar.low P.Scalar.high P.DIMENSIONS
        (between_corners P.DIMENSIONS (P.coord b.lower) (P.coord b.upper)) };

    ghost inverse = { λ v.
        record { lower = P.of_coords (map (λ (x : ℤ × ℤ). x.0) v); upper = P.of_coords (map (λ (x : ℤ × ℤ). x.1) v) } };

    ghost inverse_ok = { λ a h. rw (
      table-firsts P.DIMENSIONS (P.coord a.lower) (P.coord a.upper),
      table-seconds P.DIMENSIONS (P.coord a.lower) (P.coord a.upper),
      h.0,
      h.1,
    ) refl };
}

impl<P: Point> Clone for AABB<P> {
    ghost is_clone = { λ a b. b ≡ a };

    ghost is_infallible = { λ _. ⊤ };

    fn clone(&self) -> Result<AABB<P>, AllocError> {
        Ok(AABB {
            lower: copied_point(&self.lower),
            upper: copied_point(&self.upper),
        })
    }
}

impl<P: Point> AABB<P> {
    /// The box of one point.
    pub fn from_point(p: P) -> Self
        ensures { result ≡ between_corners P.DIMENSIONS (P.coord p) (P.coord p) }
    {
        AABB {
            lower: copied_point(&p),
            upper: copied_point(&p),
        }
    }

    /// The box between two corners. The first is at most the second on every axis; `upright` tests that.
    pub fn from_bounds(lower: P, upper: P) -> Self
        requires { IsTrue (is_upright P.DIMENSIONS (P.coord lower) (P.coord upper)) }
        ensures { result ≡ between_corners P.DIMENSIONS (P.coord lower) (P.coord upper) }
    {
        AABB {
            lower: copied_point(&lower),
            upper: copied_point(&upper),
        }
    }

    /// The box of a rectangle's two corners, which are upright or those of the empty box.
    pub(crate) fn between(lower: &P, upper: &P) -> Self
        ensures { result
            ≡ box_or_empty P.Scalar.low P.Scalar.high P.DIMENSIONS (P.coord lower.now) (P.coord upper.now) }
    {
        if upright(lower, upper) {
            AABB {
                lower: copied_point(lower),
                upper: copied_point(upper),
            }
        } else {
            AABB::of_any_corners(lower, upper)
        }
    }

    // The same of any corners, as two corners may be without a word about them.
    fn of_any_corners(lower: &P, upper: &P) -> Self
        ensures { result
            ≡ box_or_empty P.Scalar.low P.Scalar.high P.DIMENSIONS (P.coord lower.now) (P.coord upper.now) }
    {
        let highest = filled(P::Scalar::max_value());
        let lowest = filled(P::Scalar::min_value());
        if bound(&highest, &lowest, lower, upper) {
            return AABB::new_empty();
        }
        AABB {
            lower: copied_point(lower),
            upper: greatest_point(lower, upper),
        }
    }

    /// The box of all points at most `distance` from `center` on every axis. Its corners are clamped to the
    /// scalar's range. A negative distance counts as its absolute value.
    pub fn from_center(center: P, distance: P::Scalar) -> Self
        ensures { result ≡ box_of_corners P.DIMENSIONS
            (λ i. between (P.coord center i +ℤ P.Scalar.value distance) P.Scalar.low P.Scalar.high)
            (λ i. between (P.coord center i -ℤ P.Scalar.value distance) P.Scalar.low P.Scalar.high) }
    {
        AABB::from_corners(moved_up(&center, distance), moved_down(&center, distance))
    }

    /// The bounding box of all points. Of none it is the empty box. It costs one merge per point. The
    /// iterator has to end.
    pub fn from_points<'a, I: IntoIterator<Item = &'a P>>(i: I) -> Self
    where
        P: 'a,
        requires { IsFiniteIterable I.into_iter_gives I.IntoIter.can_next I.IntoIter.remaining i }
        ensures { (s : I.IntoIter) × (points : List (Bor P)) × I.into_iter_gives i s
            × Drains I.IntoIter.next_gives s points
            × (result ≡ hull (box_data P.Scalar.low P.Scalar.high P.DIMENSIONS)
            (λ p. between_corners P.DIMENSIONS (P.coord p.now) (P.coord p.now)) points) }
    {
        let mut hull = AABB::new_empty();
        let mut rest = i.into_iter();
        while let Some(p) = rest.next() {
            hull.merge(&AABB::from_point(copied_point(p)));
        }
        hull
    }

    /// The lower corner; the greatest scalars for the empty box.
    pub fn lower(&self) -> P
        ensures { table P.DIMENSIONS (P.coord result) ≡ map (λ x. x.0) self.now }
    {
        copied_point(&self.lower)
    }

    /// The upper corner; the least scalars for the empty box.
    pub fn upper(&self) -> P
        ensures { table P.DIMENSIONS (P.coord result) ≡ map (λ x. x.1) self.now }
    {
        copied_point(&self.upper)
    }

    /// The point of the box that is nearest to `point`. It is `point` itself where the box contains it, and
    /// the upper corner where the box is empty.
    pub fn min_point(&self, point: &P) -> P
        ensures { table P.DIMENSIONS (P.coord result)
            ≡ nearest_point self.now (table P.DIMENSIONS (P.coord point.now)) }
    {
        nearest_between(&self.lower, &self.upper, point)
    }

    /// The squared distance to `min_point`. It is clamped to the greatest scalar.
    pub fn distance_2(&self, point: &P) -> P::Scalar
        ensures { P.Scalar.value result
            ≡ pos (box_distance P.Scalar.high self.now (table P.DIMENSIONS (P.coord point.now))) }
    {
        Envelope::distance_2(self, point)
    }

    /// The bounding box of two points. They are opposite corners, in any order.
    pub fn from_corners(p: P, q: P) -> Self
        ensures { result ≡ box_of_corners P.DIMENSIONS (P.coord p) (P.coord q) }
    {
        AABB {
            lower: least_point(&p, &q),
            upper: greatest_point(&p, &q),
        }
    }
}

impl<P: Point> Envelope for AABB<P> {
    ghost use Rattle.rstar_base.specs.BoxData.{box_data};
    ghost use Rattle.rstar_base.specs.laws.BoxEnvelopes.{box_laws};
    ghost use Rattle.rstar_base.specs.laws.BoxEq.{box_eq};

    type Point = P;

    ghost boxes = { box_data P.Scalar.low P.Scalar.high P.DIMENSIONS };

    fn new_empty() -> Self {
        AABB {
            lower: filled(P::Scalar::max_value()),
            upper: filled(P::Scalar::min_value()),
        }
    }

    fn is_empty(&self) -> bool {
        !upright(&self.lower, &self.upper)
    }

    fn contains_point(&self, point: &P) -> bool {
        bound(&self.lower, &self.upper, point, point)
    }

    fn contains_envelope(&self, other: &Self) -> bool {
        bound(&self.lower, &self.upper, &other.lower, &other.upper)
    }

    fn merge(&mut self, other: &Self) {
        *self = self.merged(other);
    }

    fn merged(&self, other: &Self) -> Self {
        AABB {
            lower: least_point(&self.lower, &other.lower),
            upper: greatest_point(&self.upper, &other.upper),
        }
    }

    fn intersects(&self, other: &Self) -> bool {
        bound(&self.lower, &self.upper, &other.upper, &other.lower)
    }

    fn distance_2(&self, point: &P) -> P::Scalar {
        squared_distance(&self.lower, &self.upper, point)
    }

    fn min_max_dist_2(&self, point: &P) -> P::Scalar {
        min_max_distance(&self.lower, &self.upper, point)
    }

    fn area(&self) -> P::Scalar {
        extent_area(&self.lower, &self.upper)
    }

    fn intersection_area(&self, other: &Self) -> P::Scalar {
        extent_area(
            &greatest_point(&self.lower, &other.lower),
            &least_point(&self.upper, &other.upper),
        )
    }

    fn center(&self) -> P {
        middle_point(&self.lower, &self.upper)
    }

    fn perimeter_value(&self) -> P::Scalar {
        extent_perimeter(&self.lower, &self.upper)
    }

    fn axis_key(&self, axis: usize) -> P::Scalar {
        self.lower.nth(axis)
    }

    ghost envelope_laws = { box_laws P.Scalar.low P.Scalar.high P.DIMENSIONS P.Scalar.low_law P.Scalar.high_law };

    ghost eq_law = { λ a b h k. box_eq P.Scalar.low P.Scalar.high P.DIMENSIONS P.coord P.of_coords P.eq P.coords_of_law
        P.eq_law a b h k };
}
