//! Selection functions: which parents a traversal visits, and which elements it yields.

ghost use Rattle.std.specs.Prelude.{◌≡◌, Bool, true, pos, int_le};
ghost use Rattle.rstar_base.specs.Points.{table};
ghost use Rattle.rstar_base.specs.Selections.{IsLawful, SelectsBy};

use crate::envelope::Envelope;
use crate::object::{Distance, EqualEnvelopes, PointDistance, PointOf, RTreeObject};
use crate::point::{known, not_above};

/// Which parents a traversal visits, and which elements it yields.
///
/// A function is lawful when it accepts every envelope that the envelope of a selected element was merged
/// into and that is not empty. A traversal with a lawful function yields every selected element. With any
/// other function it yields only selected elements, and may miss some.
///
/// ```rust
/// impl SelectionFunction<[i32; 2]> for LeftHalf {
///     ghost accepts = { λ _ e. int_lt (⟦<AABB<[i32; 2]> as Envelope>⟧.boxes.axis_key e 0) (pos 50) };
///     ghost selects = { λ _ t. int_lt (⟦<[i32; 2] as Point>⟧.coord t 0) (pos 50) };
///     fn should_unpack_parent(&self, envelope: &AABB<[i32; 2]>) -> bool {
///         envelope.axis_key(0) < 50
///     }
///     fn should_unpack_leaf(&self, leaf: &[i32; 2]) -> bool {
///         leaf[0] < 50
///     }
/// }
/// ```
/// *`crates/rstar_vectors/src/selections.rt`*
pub trait SelectionFunction<T: RTreeObject>: Drop {
    // The two answers, as functions.
    ghost accepts: { Self → T.Envelope → Bool };

    ghost selects: { Self → T → Bool };

    /// Whether the children of a parent with this envelope are visited.
    fn should_unpack_parent(&self, envelope: &T::Envelope) -> bool
        ensures { result ≡ accepts self.now envelope.now };

    /// Whether this element is selected.
    fn should_unpack_leaf(&self, leaf: &T) -> bool
        ensures { result ≡ selects self.now leaf.now };
}

/// Selects all elements.
#[derive(Drop)]
pub struct SelectAllFunc;

impl<T: RTreeObject> SelectionFunction<T> for SelectAllFunc {
    ghost accepts = { λ _ _. true };

    ghost selects = { λ _ _. true };

    // No call makes this function, so that it is lawful stands here.
    fn should_unpack_parent(&self, _envelope: &T::Envelope) -> bool
        ensures always { result ≡ true }
        ensures lawful { IsLawful T.Envelope.boxes T.object
            (⟦<SelectAllFunc as SelectionFunction<T>>⟧.accepts self.now)
            (⟦<SelectAllFunc as SelectionFunction<T>>⟧.selects self.now) }
    {
        true
    }

    fn should_unpack_leaf(&self, _leaf: &T) -> bool
        ensures always { result ≡ true }
    {
        true
    }
}

/// Selects the elements whose envelopes an envelope contains.
#[derive(Drop)]
pub struct SelectInEnvelopeFunction<T: RTreeObject> {
    envelope: T::Envelope,
}

impl<T: RTreeObject> SelectInEnvelopeFunction<T> {
    /// Selects the elements inside `envelope`, and visits the parents that it intersects.
    pub fn new(envelope: T::Envelope) -> Self
        ensures { SelectsBy T.Envelope.boxes T.object (⟦<SelectInEnvelopeFunction<T> as SelectionFunction<T>>⟧.accepts result)
            (⟦<SelectInEnvelopeFunction<T> as SelectionFunction<T>>⟧.selects result)
            (λ e. T.Envelope.boxes.intersects envelope e)
            (λ t. T.Envelope.boxes.contains envelope (T.object.box_of t)) }
    {
        let _known = envelope.is_empty();
        SelectInEnvelopeFunction { envelope }
    }
}

impl<T: RTreeObject> SelectionFunction<T> for SelectInEnvelopeFunction<T> {
    ghost accepts = { λ f e. T.Envelope.boxes.intersects f.envelope e };

    ghost selects = { λ f t. T.Envelope.boxes.contains f.envelope (T.object.box_of t) };

    fn should_unpack_parent(&self, envelope: &T::Envelope) -> bool {
        self.envelope.intersects(envelope)
    }

    fn should_unpack_leaf(&self, leaf: &T) -> bool {
        self.envelope.contains_envelope(&leaf.envelope())
    }
}

/// Selects the elements whose envelopes an envelope intersects.
#[derive(Drop)]
pub struct SelectInEnvelopeFuncIntersecting<T: RTreeObject> {
    envelope: T::Envelope,
}

impl<T: RTreeObject> SelectInEnvelopeFuncIntersecting<T> {
    /// Selects the elements, and visits the parents, that `envelope` intersects.
    pub fn new(envelope: T::Envelope) -> Self
        ensures { SelectsBy T.Envelope.boxes T.object (⟦<SelectInEnvelopeFuncIntersecting<T> as SelectionFunction<T>>⟧.accepts result)
            (⟦<SelectInEnvelopeFuncIntersecting<T> as SelectionFunction<T>>⟧.selects result)
            (λ e. T.Envelope.boxes.intersects envelope e)
            (λ t. T.Envelope.boxes.intersects envelope (T.object.box_of t)) }
    {
        let _known = envelope.is_empty();
        SelectInEnvelopeFuncIntersecting { envelope }
    }
}

impl<T: RTreeObject> SelectionFunction<T> for SelectInEnvelopeFuncIntersecting<T> {
    ghost accepts = { λ f e. T.Envelope.boxes.intersects f.envelope e };

    ghost selects = { λ f t. T.Envelope.boxes.intersects f.envelope (T.object.box_of t) };

    fn should_unpack_parent(&self, parent_envelope: &T::Envelope) -> bool {
        self.envelope.intersects(parent_envelope)
    }

    fn should_unpack_leaf(&self, leaf: &T) -> bool {
        self.envelope.intersects(&leaf.envelope())
    }
}

/// Selects the elements that contain a point.
#[derive(Drop)]
pub struct SelectAtPointFunction<T: RTreeObject> {
    point: PointOf<T>,
}

impl<T: PointDistance> SelectAtPointFunction<T> {
    /// Selects by `contains_point`, and visits the parents that contain the point.
    pub fn new(point: PointOf<T>) -> Self
        ensures { SelectsBy T.Envelope.boxes T.object (⟦<SelectAtPointFunction<T> as SelectionFunction<T>>⟧.accepts result)
            (⟦<SelectAtPointFunction<T> as SelectionFunction<T>>⟧.selects result)
            (λ e. T.Envelope.boxes.contains_point e
            (table T.Envelope.Point.DIMENSIONS (T.Envelope.Point.coord point)))
            (λ t. T.distances.contains_point t (table T.Envelope.Point.DIMENSIONS (T.Envelope.Point.coord point))) }
    {
        // Does nothing but tell that the point's coordinates are in their range.
        known(&point);
        SelectAtPointFunction { point }
    }
}

impl<T: PointDistance> SelectionFunction<T> for SelectAtPointFunction<T> {
    ghost accepts = { λ f e. T.Envelope.boxes.contains_point e
        (table T.Envelope.Point.DIMENSIONS (T.Envelope.Point.coord f.point)) };

    ghost selects = { λ f t. T.distances.contains_point t
        (table T.Envelope.Point.DIMENSIONS (T.Envelope.Point.coord f.point)) };

    fn should_unpack_parent(&self, envelope: &T::Envelope) -> bool {
        envelope.contains_point(&self.point)
    }

    fn should_unpack_leaf(&self, leaf: &T) -> bool {
        leaf.contains_point(&self.point)
    }
}

/// Selects the elements within a distance of a point.
#[derive(Drop)]
pub struct SelectWithinDistanceFunction<T: RTreeObject> {
    circle_origin: PointOf<T>,
    squared_max_distance: Distance<T>,
}

impl<T: PointDistance> SelectWithinDistanceFunction<T> {
    /// Selects elements and visits parents at most this squared distance from the point.
    pub fn new(circle_origin: PointOf<T>, squared_max_distance: Distance<T>) -> Self
        ensures { SelectsBy T.Envelope.boxes T.object (⟦<SelectWithinDistanceFunction<T> as SelectionFunction<T>>⟧.accepts result)
            (⟦<SelectWithinDistanceFunction<T> as SelectionFunction<T>>⟧.selects result)
            (λ e. int_le (pos (T.Envelope.boxes.distance_2 e
            (table T.Envelope.Point.DIMENSIONS (T.Envelope.Point.coord circle_origin))))
            (T.Envelope.Point.Scalar.value squared_max_distance))
            (λ t. int_le (pos (T.distances.distance_2 t
            (table T.Envelope.Point.DIMENSIONS (T.Envelope.Point.coord circle_origin))))
            (T.Envelope.Point.Scalar.value squared_max_distance)) }
    {
        // Does nothing but tell that the point's coordinates are in their range.
        known(&circle_origin);
        SelectWithinDistanceFunction {
            circle_origin,
            squared_max_distance,
        }
    }
}

impl<T: PointDistance> SelectionFunction<T> for SelectWithinDistanceFunction<T> {
    ghost accepts = { λ f e. int_le
        (pos (T.Envelope.boxes.distance_2 e
        (table T.Envelope.Point.DIMENSIONS (T.Envelope.Point.coord f.circle_origin))))
        (T.Envelope.Point.Scalar.value f.squared_max_distance) };

    ghost selects = { λ f t. int_le
        (pos (T.distances.distance_2 t (table T.Envelope.Point.DIMENSIONS (T.Envelope.Point.coord f.circle_origin))))
        (T.Envelope.Point.Scalar.value f.squared_max_distance) };

    fn should_unpack_parent(&self, envelope: &T::Envelope) -> bool {
        let distance_2 = envelope.distance_2(&self.circle_origin);
        not_above(distance_2, self.squared_max_distance)
    }

    fn should_unpack_leaf(&self, leaf: &T) -> bool {
        leaf.distance_2_if_less_or_equal(&self.circle_origin, self.squared_max_distance)
            .is_some()
    }
}

/// Selects the elements that equal an element.
#[derive(Drop)]
pub struct SelectEqualsFunction<'a, T: EqualEnvelopes> {
    object_to_remove: &'a T,
}

impl<'a, T: EqualEnvelopes> SelectEqualsFunction<'a, T> {
    /// Selects by `==`, and visits the parents that contain the element's envelope. Equal elements have
    /// equal envelopes.
    pub fn new(object_to_remove: &'a T) -> Self
        ensures { SelectsBy T.Envelope.boxes T.object (⟦<SelectEqualsFunction<'a, T> as SelectionFunction<T>>⟧.accepts result)
            (⟦<SelectEqualsFunction<'a, T> as SelectionFunction<T>>⟧.selects result)
            (λ e. T.Envelope.boxes.contains e (T.object.box_of object_to_remove.now))
            (λ t. T.eq t object_to_remove.now) }
    {
        let _known = object_to_remove.envelope();
        SelectEqualsFunction { object_to_remove }
    }
}

impl<'a, T: EqualEnvelopes> SelectionFunction<T> for SelectEqualsFunction<'a, T> {
    ghost accepts = { λ f e. T.Envelope.boxes.contains e (T.object.box_of f.object_to_remove.now) };

    ghost selects = { λ f t. T.eq t f.object_to_remove.now };

    fn should_unpack_parent(&self, envelope: &T::Envelope) -> bool {
        envelope.contains_envelope(&self.object_to_remove.envelope())
    }

    fn should_unpack_leaf(&self, leaf: &T) -> bool {
        leaf == self.object_to_remove
    }
}
