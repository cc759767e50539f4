//! The order in which commands take neighbours.

ghost use Rattle.std.specs.Prelude.{◌≡◌, None};
ghost use Rattle.rstar.specs.declared.replay.Command.TheVariants.{PopNearest};
ghost use Rattle.rstar.specs.declared.replay.Reply.TheVariants.{Taken};
ghost use Rattle.rstar.specs.Steps.{IsRefusal, StepByOrder};
ghost use Rattle.rstar.specs.Trees.{elements_in, IsWholeTree};

use crate::algorithm::nearest_neighbor::{AnyFirst, ElementOrder, OwnOrder};
use crate::replay::{Reply, Scanned};
use crate::rtree::RTree;
use rstar_base::{EqualEnvelopes, PointDistance, PointOf, RTreeParams};

/// Which of several elements at equal distance comes first.
pub(super) trait Reading<T: PointDistance + EqualEnvelopes>: ElementOrder<T> {
    /// Removes the first element by distance to a point.
    fn pop<Params: RTreeParams>(tree: &mut RTree<T, Params>, point: PointOf<T>) -> Reply<T>
        requires whole { IsWholeTree T.Envelope.boxes T.object Params.MAX_SIZE tree.old }
        ensures step { StepByOrder ⟦<T as Scanned>⟧.questions Self.order (elements_in tree.old) (PopNearest point) result
            (elements_in tree.new) }
        ensures whole { IsWholeTree T.Envelope.boxes T.object Params.MAX_SIZE tree.new }
        ensures missed { result ≡ Taken None → tree.new ≡ tree.old }
        ensures refused { IsRefusal result → tree.new ≡ tree.old };
}

impl<T: PointDistance + EqualEnvelopes> Reading<T> for AnyFirst {
    #[tactic(auto, using(crate::proofs::commands::Replays::same_bag))]
    fn pop<Params: RTreeParams>(tree: &mut RTree<T, Params>, point: PointOf<T>) -> Reply<T> {
        match tree.pop_nearest_neighbor(point) {
            Ok(taken) => Reply::Taken(taken),
            Err(_) => Reply::NoMemory,
        }
    }
}

impl<T: PointDistance + EqualEnvelopes + Ord> Reading<T> for OwnOrder {
    #[tactic(auto, using(crate::proofs::commands::Replays::same_bag))]
    fn pop<Params: RTreeParams>(tree: &mut RTree<T, Params>, point: PointOf<T>) -> Reply<T> {
        match tree.pop_nearest_neighbor_by_order(point) {
            Ok(taken) => Reply::Taken(taken),
            Err(_) => Reply::NoMemory,
        }
    }
}
