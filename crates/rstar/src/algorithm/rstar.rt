//! Insertion and splits, after Beckmann, Kriegel, Schneider and Seeger, "The R*-tree" (1990).

ghost use Rattle.std.specs.Prelude.{◌≡◌, ◌≤◌, ◌<◌, [], ◌++◌, vec_len, vec_capacity, unsigned_abs};
ghost use Rattle.rstar.specs.Cuts.{IsArrangement, IsLeastCut};
ghost use Rattle.rstar.specs.Nodes.{node_box};

pub(crate) mod choose;
mod insertion;
pub(crate) mod preparation;
pub(crate) mod reinsertion;
pub(crate) mod split;

use crate::algorithm::rstar::split::split_in_place;
use crate::node::RTreeNode;
use crate::params::{InsertCause, InsertError, InsertionStrategy};
use crate::rtree::RTree;
use rstar_base::{Envelope, RTreeObject, RTreeParams};

/// Inserts as the R*-tree does: choice of the subtree, forced reinsertion, splits. The source is Beckmann et
/// al. 1990.
pub enum RStarInsertionStrategy {}

impl InsertionStrategy for RStarInsertionStrategy {
    fn insert<T: RTreeObject, Params: RTreeParams>(
        tree: &mut RTree<T, Params>,
        t: T,
    ) -> Result<(), InsertError<T>> {
        let Some(wanted) = tree.lists_to_prepare() else {
            return Err(InsertError {
                element: t,
                cause: InsertCause::TooMany,
            });
        };
        let Ok(()) = tree.prepare(wanted) else {
            return Err(InsertError {
                element: t,
                cause: InsertCause::NoMemory,
            });
        };
        tree.insert_prepared(t);
        Ok(())
    }
}

/// Splits a list of more than `MAX_SIZE` children in two. Each part has at least `MIN_SIZE` (Beckmann et al.
/// 1990).
///
/// The list is sorted along one axis and cut. No allowed cut has a smaller overlap, or the same overlap and
/// a smaller sum of areas, clamped. `spare` is an empty list with room for all children, and no memory is
/// taken. The cost is a sort for each axis and one more, and one merge of all children for each allowed cut
/// of each axis.
pub fn split_children<T: RTreeObject, Params: RTreeParams>(
    list: Vec<RTreeNode<T>>,
    spare: Vec<RTreeNode<T>>,
) -> (Vec<RTreeNode<T>>, Vec<RTreeNode<T>>)
    requires many { Params.MAX_SIZE < vec_len list }
    requires empty { spare.items ≡ [] }
    requires room { vec_len list ≤ vec_capacity spare }
    ensures arranged { IsArrangement T.Envelope.Point.DIMENSIONS
        (λ n axis. T.Envelope.boxes.axis_key (node_box T.object.box_of n) axis) list.items
        (result.0.items ++ result.1.items) }
    ensures least { IsLeastCut T.Envelope.boxes (node_box T.object.box_of) (unsigned_abs T.Envelope.Point.Scalar.high)
        Params.MIN_SIZE (result.0.items ++ result.1.items) (vec_len result.0) }
    ensures capacities { (vec_capacity result.0 ≡ vec_capacity list) × (vec_capacity spare ≤ vec_capacity result.1) }
{
    let mut first = list;
    let mut second = spare;
    split_in_place::<_, Params>(&mut first, &mut second);
    (first, second)
}
