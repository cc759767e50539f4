//! How far envelopes lie apart.

ghost use Rattle.std.specs.Prelude.{◌≡◌, ℕ, pos};
ghost use Rattle.rstar_base.specs.Gaps.{GapLaws};

use crate::envelope::Envelope;
use crate::point::Point;

/// An envelope type with a distance of two envelopes.
///
/// All distances are squared. The laws: the distance is the same from either side, 0 exactly where the two intersect,
/// and that of a merge is at most that of a part that is not empty.
pub trait EnvelopeDistance: Envelope {
    // The squared distance of two envelopes.
    ghost apart: { Self → Self → ℕ };

    /// The squared distance of two envelopes; 0 exactly where they intersect.
    fn distance_2_to_envelope(&self, other: &Self) -> <Self::Point as Point>::Scalar
        ensures value { Self.Point.Scalar.value result ≡ pos (apart self.now other.now) }
        ensures own { Self.boxes.IsValue self.now × Self.boxes.IsValue other.now };

    ghost gap_laws: { GapLaws Self.boxes apart };
}
