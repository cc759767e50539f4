//! What a join needs of the envelopes of two element types.

ghost use Rattle.std.specs.Prelude.{◌≡◌};
ghost use Rattle.rstar.specs.Joins.{SeenLaws, meets_by};

use crate::bounds::Covered;
use crate::iterators::InEnvelope;
use rstar_base::{Envelope, RTreeObject};

/// Whether envelopes of two element types intersect.
pub trait Meets<T: Covered>: Covered {
    // The envelope, as one of the first's type.
    ghost seen: { Self.Cover → T.Cover };

    /// Whether two envelopes intersect.
    fn meet(envelope: &T::Cover, other: &Self::Cover) -> bool
        ensures { result ≡ meets_by T.Cover.boxes seen envelope.now other.now };

    ghost seen_laws: { SeenLaws Self.Cover.boxes T.Cover.boxes seen };
}

impl<T: RTreeObject, U: InEnvelope<T::Envelope>> Meets<T> for U {
    ghost seen = { U.seen };

    fn meet(envelope: &T::Envelope, other: &U::Envelope) -> bool {
        envelope.intersects(U::seen(other))
    }

    ghost seen_laws = { U.seen_laws };
}
