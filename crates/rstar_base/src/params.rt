//! Node sizes.

ghost use Rattle.std.specs.Prelude.{ℕ, IsTrue, ◌↔◌, ◌+◌, ◌*◌, ◌<◌, ◌≤◌, ◌^◌};
ghost use Rattle.rstar_base.specs.NodeSizes.{AreNodeSizes};

use crate::envelope::Envelope;
use crate::object::RTreeObject;
use crate::point::Point;

/// The node sizes of a tree. A type proves their bounds as laws; no value of it is ever made.
pub trait RTreeParams {
    // The numbers, for clauses. Each is proved to be the constant of the same name.
    ghost MIN_SIZE: { ℕ };

    ghost MAX_SIZE: { ℕ };

    ghost REINSERTION_COUNT: { ℕ };

    /// The fewest children of a parent. It is at least 1, and at most half of `MAX_SIZE`, rounded up. It
    /// holds for parents other than the root, in a tree built by insertions alone.
    const MIN_SIZE: usize;

    /// The most children of a parent. It is at least 4, and below the greatest `usize`.
    const MAX_SIZE: usize;

    /// How many children of an overfull parent are reinserted. It is less than `MAX_SIZE - MIN_SIZE`; with 0
    /// an overfull parent is split at once (Beckmann et al. 1990).
    const REINSERTION_COUNT: usize;

    ghost max_at_least_four: { 4 ≤ MAX_SIZE };

    ghost max_fits: { MAX_SIZE + 1 < 2 ^ 64 };

    ghost min_positive: { 0 < MIN_SIZE };

    ghost min_at_most_half: { 2 * MIN_SIZE ≤ MAX_SIZE + 1 };

    ghost reinsertion_leaves: { REINSERTION_COUNT + MIN_SIZE < MAX_SIZE };
}

/// The default node sizes: 3, 6 and 2.
#[derive(Clone, Copy, PartialEq, Eq, Default, Drop)]
pub struct DefaultParams;

impl RTreeParams for DefaultParams {
    ghost use Rattle.std.proofs.Common.{arith};

    ghost MIN_SIZE = { 3 };

    ghost MAX_SIZE = { 6 };

    ghost REINSERTION_COUNT = { 2 };

    const MIN_SIZE: usize = 3;

    const MAX_SIZE: usize = 6;

    const REINSERTION_COUNT: usize = 2;

    ghost max_at_least_four = { Prim.omega arith };

    ghost max_fits = { Prim.omega arith };

    ghost min_positive = { Prim.omega arith };

    ghost min_at_most_half = { Prim.omega arith };

    ghost reinsertion_leaves = { Prim.omega arith };
}

/// Whether node sizes and axes are as `new` and the loads ask. The sizes keep their bounds by law, so it is
/// false exactly where the points have fewer than two axes.
pub fn verify_parameters<T: RTreeObject, Params: RTreeParams>() -> bool
    ensures { IsTrue result ↔ AreNodeSizes Params.MIN_SIZE Params.MAX_SIZE Params.REINSERTION_COUNT
        × (2 ≤ T.Envelope.Point.DIMENSIONS) }
{
    let most = 4 <= Params::MAX_SIZE && Params::MAX_SIZE < usize::MAX;
    let fewest = 0 < Params::MIN_SIZE && Params::MIN_SIZE <= Params::MAX_SIZE.div_ceil(2);
    let reinserted = Params::REINSERTION_COUNT < Params::MAX_SIZE - Params::MIN_SIZE;
    most && fewest && reinserted && 2 <= <T::Envelope as Envelope>::Point::DIMENSIONS
}
