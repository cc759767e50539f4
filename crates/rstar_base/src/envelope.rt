//! Envelopes: the bounding shapes that a tree keeps.

ghost use Rattle.std.specs.Prelude.{◌≡◌, ◌↔◌, ◌<◌, ℕ, ℤ, ⊤, true, IsTrue, pos, if◌then◌else◌};
ghost use Rattle.rstar_base.specs.Points.{table, IsPoint};
ghost use Rattle.rstar_base.specs.Boxes.{is_empty_box};
ghost use Rattle.rstar_base.specs.BoxData.{box_data};
ghost use Rattle.rstar_base.specs.Envelopes.{Boxes, EnvelopeLaws};
ghost use Rattle.rstar_base.specs.Counts.{counted_boxes};

mod gaps;

use crate::aabb::AABB;
use crate::point::Point;
use std::alloc::AllocError;
use std::fmt::Debug;
use std::marker::Model;

/// A bounding shape that a tree keeps for each parent. `AABB` is the one for boxes.
///
/// A type proves its laws (`envelope_laws`, `eq_law`). Merging is commutative and associative, and the empty
/// envelope is its unit. A merge contains both parts and is no farther than either that is not empty. Its
/// `min_max_dist_2` is at least the lesser of theirs. Pruning is right by these laws. Distances are squared,
/// and no call takes memory.
pub trait Envelope: Clone + PartialEq + Debug + Drop {
    /// The type of the points.
    type Point: Point;

    // The type in numbers.
    ghost boxes: { Boxes Self };

    /// The empty envelope, the unit of merging.
    fn new_empty() -> Self
        ensures { result ≡ boxes.empty };

    /// Whether the envelope is empty. No element in a tree has an empty envelope.
    fn is_empty(&self) -> bool
        ensures test { result ≡ boxes.is_empty self.now }
        ensures own { boxes.IsValue self.now };

    /// Whether the envelope contains a point.
    fn contains_point(&self, point: &Self::Point) -> bool
        ensures test { result
            ≡ boxes.contains_point self.now (table Self.Point.DIMENSIONS (Self.Point.coord point.now)) }
        ensures own { boxes.IsValue self.now };

    /// Whether the envelope contains another one. Borders belong to it.
    fn contains_envelope(&self, other: &Self) -> bool
        ensures test { result ≡ boxes.contains self.now other.now }
        ensures own { boxes.IsValue self.now × boxes.IsValue other.now };

    /// Merges another envelope into this one.
    fn merge(&mut self, other: &Self)
        ensures merged { self.new ≡ boxes.merge self.old other.now }
        ensures own { boxes.IsValue self.old × boxes.IsValue other.now };

    /// The merge of two envelopes.
    fn merged(&self, other: &Self) -> Self
        ensures merged { result ≡ boxes.merge self.now other.now }
        ensures own { boxes.IsValue self.now × boxes.IsValue other.now };

    /// Whether two envelopes intersect. Boxes that touch intersect.
    fn intersects(&self, other: &Self) -> bool
        ensures test { result ≡ boxes.intersects self.now other.now }
        ensures own { boxes.IsValue self.now × boxes.IsValue other.now };

    /// The squared distance to a point. No element inside the envelope is nearer.
    fn distance_2(&self, point: &Self::Point) -> <Self::Point as Point>::Scalar
        ensures value { Self.Point.Scalar.value result
            ≡ pos (boxes.distance_2 self.now (table Self.Point.DIMENSIONS (Self.Point.coord point.now))) }
        ensures own { boxes.IsValue self.now };

    /// MINMAXDIST: a squared distance within which some element lies (Roussopoulos et al. 1995). The
    /// envelope is the merge of elements' envelopes.
    fn min_max_dist_2(&self, point: &Self::Point) -> <Self::Point as Point>::Scalar
        ensures value { Self.Point.Scalar.value result
            ≡ pos (boxes.min_max_dist_2 self.now (table Self.Point.DIMENSIONS (Self.Point.coord point.now))) }
        ensures own { boxes.IsValue self.now };

    /// The area. It is clamped to the greatest scalar.
    fn area(&self) -> <Self::Point as Point>::Scalar
        ensures value { Self.Point.Scalar.value result ≡ pos (boxes.area self.now) }
        ensures own { boxes.IsValue self.now };

    /// The area of the intersection. It is clamped to the greatest scalar.
    fn intersection_area(&self, other: &Self) -> <Self::Point as Point>::Scalar
        ensures value { Self.Point.Scalar.value result ≡ pos (boxes.intersection_area self.now other.now) }
        ensures own { boxes.IsValue self.now × boxes.IsValue other.now };

    /// The center.
    fn center(&self) -> Self::Point
        ensures coords { table Self.Point.DIMENSIONS (Self.Point.coord result) ≡ boxes.center self.now }
        ensures own { boxes.IsValue self.now };

    /// A number that grows with the perimeter. A split chooses its axis by it.
    fn perimeter_value(&self) -> <Self::Point as Point>::Scalar
        ensures value { Self.Point.Scalar.value result ≡ pos (boxes.perimeter self.now) }
        ensures own { boxes.IsValue self.now };

    /// The sort key on an axis below `DIMENSIONS`. For a box it is the lower coordinate.
    fn axis_key(&self, axis: usize) -> <Self::Point as Point>::Scalar
        requires { axis < Self.Point.DIMENSIONS }
        ensures value { Self.Point.Scalar.value result ≡ boxes.axis_key self.now axis }
        ensures own { boxes.IsValue self.now };

    ghost envelope_laws: { EnvelopeLaws (IsPoint Self.Point.Scalar.low Self.Point.Scalar.high Self.Point.DIMENSIONS)
        boxes };

    // `==` is equality of what is meant.
    ghost eq_law: { (a b : Self) → boxes.IsValue a → boxes.IsValue b → IsTrue (Self.eq a b) ↔ (a ≡ b) };
}

/// A copy of an envelope. It takes no memory.
pub fn copied_envelope<E: Envelope>(e: &E) -> E
    ensures same { result ≡ e.now }
    ensures own { E.boxes.IsValue e.now }
{
    E::new_empty().merged(e)
}

/// A bounding box with a count. A box made by `new` counts once, and merging adds the counts.
///
/// A parent in a tree of such envelopes knows how many elements lie below it. Counts are clamped to the
/// greatest `usize`. Only the empty box counts 0. Equality compares box and count; every other call answers
/// for the box.
#[derive(Copy, Debug, PartialEq, Eq, Drop)]
pub struct Counted<P: Point> {
    aabb: AABB<P>,
    count: usize,
}

impl<P: Point> Model for Counted<P> {
    ghost use Rattle.std.specs.Prelude.{◌≡◌, ℕ, ℤ, List, refl};
    ghost use Rattle.rstar_base.specs.BoxData.{box_data};
    ghost use Rattle.rstar_base.specs.Counts.{IsCounted};

    ghost Value = { List (ℤ × ℤ) × ℕ };

    ghost view = { λ c. (c.aabb, c.count) };

    ghost invariant = { λ c. IsCounted (box_data P.Scalar.low P.Scalar.high P.DIMENSIONS) c.aabb c.count };

    ghost inverse = { λ v. record { aabb = v.0; count = v.1 } };

    ghost inverse_ok = { λ a h. refl };
}

impl<P: Point> Clone for Counted<P> {
    ghost is_clone = { λ a b. b ≡ a };

    ghost is_infallible = { λ _. ⊤ };

    fn clone(&self) -> Result<Counted<P>, AllocError> {
        Ok(Counted {
            aabb: self.aabb.clone()?,
            count: self.count,
        })
    }
}

impl<P: Point> Counted<P> {
    /// A box that counts once. The empty box counts 0 where there is an axis.
    pub fn new(aabb: AABB<P>) -> Self
        ensures { result ≡ (aabb, if is_empty_box aabb then 0 else 1) }
    {
        let count = if aabb.is_empty() { 0 } else { 1 };
        Counted { aabb, count }
    }

    /// The box.
    pub fn aabb(&self) -> &AABB<P>
        ensures { result.now ≡ self.now.0 }
    {
        &self.aabb
    }

    /// The number of boxes merged. It is clamped to the greatest `usize`. Where there is an axis it is 0
    /// exactly when the box is empty.
    pub fn count(&self) -> usize
        ensures value { result ≡ self.now.1 }
        ensures none { 0 < P.DIMENSIONS → (result ≡ 0) ↔ (is_empty_box self.now.0 ≡ true) }
    {
        self.count
    }
}

impl<P: Point> Envelope for Counted<P> {
    ghost use Rattle.rstar_base.specs.laws.BoxEnvelopes.{box_laws};
    ghost use Rattle.rstar_base.specs.laws.BoxEq.{box_eq};
    ghost use Rattle.rstar_base.specs.laws.CountedLaws.{counted_eq, counted_laws};

    type Point = P;

    ghost boxes = { counted_boxes (box_data P.Scalar.low P.Scalar.high P.DIMENSIONS) };

    fn new_empty() -> Self {
        Counted {
            aabb: AABB::new_empty(),
            count: 0,
        }
    }

    fn is_empty(&self) -> bool {
        self.count == 0
    }

    fn contains_point(&self, point: &P) -> bool {
        self.aabb.contains_point(point)
    }

    fn contains_envelope(&self, other: &Self) -> bool {
        self.aabb.contains_envelope(&other.aabb)
    }

    fn merge(&mut self, other: &Self) {
        *self = self.merged(other);
    }

    fn merged(&self, other: &Self) -> Self {
        Counted {
            aabb: self.aabb.merged(&other.aabb),
            count: self.count.saturating_add(other.count),
        }
    }

    fn intersects(&self, other: &Self) -> bool {
        self.aabb.intersects(&other.aabb)
    }

    fn distance_2(&self, point: &P) -> P::Scalar {
        Envelope::distance_2(&self.aabb, point)
    }

    fn min_max_dist_2(&self, point: &P) -> P::Scalar {
        self.aabb.min_max_dist_2(point)
    }

    fn area(&self) -> P::Scalar {
        self.aabb.area()
    }

    fn intersection_area(&self, other: &Self) -> P::Scalar {
        self.aabb.intersection_area(&other.aabb)
    }

    fn center(&self) -> P {
        self.aabb.center()
    }

    fn perimeter_value(&self) -> P::Scalar {
        self.aabb.perimeter_value()
    }

    fn axis_key(&self, axis: usize) -> P::Scalar {
        self.aabb.axis_key(axis)
    }

    ghost envelope_laws = { counted_laws (box_data P.Scalar.low P.Scalar.high P.DIMENSIONS)
        (box_laws P.Scalar.low P.Scalar.high P.DIMENSIONS P.Scalar.low_law P.Scalar.high_law) };

    ghost eq_law = { λ a b h k. counted_eq ⟦<AABB<P> as PartialEq>⟧.eq a b
        (box_eq P.Scalar.low P.Scalar.high P.DIMENSIONS P.coord P.of_coords P.eq P.coords_of_law P.eq_law
        a.0 b.0 h.inside k.inside) };
}
