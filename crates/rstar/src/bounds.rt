//! The small traits that code over nodes asks for, in the place of the public ones.
//!
//! An element type brings some sixty traits of its envelope, point and scalar, and a check carries them
//! through each step. So code over nodes asks for these traits alone. Each public type has them.
//!
//! | Here | Mirrors | For |
//! |---|---|---|
//! | `Merges` | `Envelope` | all |
//! | `Covered` | `RTreeObject` | all |
//! | `Question` | `SelectionFunction` | selections, visits, removals |
//! | `Measured`, `SquaredDistance` | `PointDistance`, `RTreeNum` | neighbours |
//! | `Meets` | `InEnvelope` | joins |
//! | `InSlabs` | `RTreeObject`, `Point` | loads |
//! | `Placed` | `RTreeObject`, `Envelope` | insertion |

ghost use Rattle.std.specs.Prelude.{◌≡◌, ℤ, List, Bool, false};
ghost use Rattle.rstar_base.specs.Elements.{Objects, ObjectLaws};
ghost use Rattle.rstar_base.specs.Envelopes.{Boxes, EnvelopeLaws};
ghost use Rattle.rstar_base.specs.Points.{IsPoint};

mod distances;
mod meeting;
mod placing;
mod slabs;

pub use crate::bounds::distances::{Measured, SquaredDistance};
pub use crate::bounds::meeting::Meets;
pub use crate::bounds::placing::Placed;
pub use crate::bounds::slabs::InSlabs;
use rstar_base::envelope::copied_envelope;
use rstar_base::{Envelope, RTreeObject, SelectionFunction};
use std::fmt::Debug;

/// An envelope that can be merged and compared.
pub trait Merges: Debug + Drop {
    ghost boxes: { Boxes Self };

    // Which lists of numbers are points.
    ghost is_point: { List ℤ → Type 0 };

    /// The empty envelope.
    fn new_empty() -> Self
        ensures { result ≡ boxes.empty };

    /// Merges another envelope into this one.
    fn merge(&mut self, other: &Self)
        ensures merged { self.new ≡ boxes.merge self.old other.now }
        ensures own { boxes.IsValue self.old × boxes.IsValue other.now };

    /// The merge of two envelopes.
    fn merged(&self, other: &Self) -> Self
        ensures merged { result ≡ boxes.merge self.now other.now }
        ensures own { boxes.IsValue self.now × boxes.IsValue other.now };

    /// A copy.
    fn copied(&self) -> Self
        ensures same { result ≡ self.now }
        ensures own { boxes.IsValue self.now };

    /// Whether two envelopes differ.
    fn differs(&self, other: &Self) -> bool
        ensures { result ≡ false → self.now ≡ other.now };

    ghost merge_laws: { EnvelopeLaws is_point boxes };
}

impl<E: Envelope> Merges for E {
    ghost boxes = { E.boxes };

    ghost is_point = { IsPoint E.Point.Scalar.low E.Point.Scalar.high E.Point.DIMENSIONS };

    fn new_empty() -> E {
        <E as Envelope>::new_empty()
    }

    fn merge(&mut self, other: &E) {
        Envelope::merge(self, other)
    }

    fn merged(&self, other: &E) -> E {
        Envelope::merged(self, other)
    }

    fn copied(&self) -> E {
        copied_envelope(self)
    }

    fn differs(&self, other: &E) -> bool {
        // Each call attests its envelope, so that `==` is equality, and costs nothing where no one asks for its answer.
        let _one = self.is_empty();
        let _other = other.is_empty();
        *self != *other
    }

    ghost merge_laws = { E.envelope_laws };
}

/// An element with an envelope.
pub trait Covered: Drop {
    /// The type of the envelope.
    type Cover: Merges;

    ghost object: { Objects Self Self.Cover };

    /// The envelope of the element.
    fn envelope(&self) -> Self::Cover
        ensures value { result ≡ object.box_of self.now }
        ensures own { object.IsValue self.now };

    ghost cover_law: { ObjectLaws Self.Cover.boxes object };
}

impl<T: RTreeObject> Covered for T {
    type Cover = T::Envelope;

    ghost object = { T.object };

    fn envelope(&self) -> T::Envelope {
        RTreeObject::envelope(self)
    }

    ghost cover_law = { T.object_law };
}

/// The selection function of a traversal.
pub trait Question<T: Covered>: Drop {
    ghost accepts: { Self → T.Cover → Bool };

    ghost selects: { Self → T → Bool };

    /// Whether the children of a parent with this envelope are visited.
    fn should_unpack_parent(&self, envelope: &T::Cover) -> bool
        ensures { result ≡ accepts self.now envelope.now };

    /// Whether this element is selected.
    fn should_unpack_leaf(&self, leaf: &T) -> bool
        ensures { result ≡ selects self.now leaf.now };
}

impl<T: RTreeObject, F: SelectionFunction<T>> Question<T> for F {
    ghost accepts = { F.accepts };

    ghost selects = { F.selects };

    fn should_unpack_parent(&self, envelope: &T::Envelope) -> bool {
        SelectionFunction::should_unpack_parent(self, envelope)
    }

    fn should_unpack_leaf(&self, leaf: &T) -> bool {
        SelectionFunction::should_unpack_leaf(self, leaf)
    }
}
