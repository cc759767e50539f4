//! All elements at the least distance.

ghost use Rattle.std.specs.Prelude.{◌≡◌, ◌++◌, ℕ, [], pos, int_le, map, filter, IfOk, IfSome, IfNone, OnOk};
ghost use Rattle.rstar.specs.Lists.{AreSomeNearest};
ghost use Rattle.rstar.specs.Nodes.{all_elements, elements_of, IsWhole};
ghost use Rattle.rstar.specs.inside.Searches.{AreWholeNodes};

use crate::algorithm::nearest_neighbor::few::one_nearest;
use crate::algorithm::nearest_neighbor::search::distance_to;
use crate::bounds::{Covered, Measured, SquaredDistance};
use crate::node::{ParentNode, RTreeNode};
use std::alloc::AllocError;

/// All elements at the least squared distance to a point, at least one, with that distance. `None` exactly
/// where there is no element.
pub(crate) fn all_nearest<'a, T: Measured>(
    root: &'a ParentNode<T>,
    point: &T::Place,
) -> Result<Option<(Vec<&'a T>, T::Distance)>, AllocError>
    requires { IsWhole T.Cover.boxes T.object root.now }
    ensures none { IfOk result (λ r. IfNone r (elements_of root.now ≡ [])) }
    ensures nearest { IfOk result (λ r. IfSome r (λ x. (d : ℕ) × (T.Distance.number x.1 ≡ pos d) × AreSomeNearest
        (λ t. T.distances.distance_2 t (T.at point.now)) (elements_of root.now) d (map (λ t. t.now) x.0.items))) }
{
    // Does nothing but tell that the point's coordinates are in their range.
    T::known(point);
    let Some(nearest) = one_nearest(root, point)? else {
        return Ok(None);
    };
    let mut all = Vec::new(*root.children.allocator());
    add_within(&root.children, point, nearest.1, &mut all)?;
    Ok(Some((all, nearest.1)))
}

/// Adds the elements below some nodes that lie within a squared distance. It is a recursion, and takes no
/// memory but that of the list.
fn add_within<'a, T: Measured>(
    nodes: &'a [RTreeNode<T>],
    point: &T::Place,
    limit: T::Distance,
    all: &mut Vec<&'a T>,
) -> Result<(), AllocError>
    requires point { T.Cover.is_point (T.at point.now) }
    requires parts { AreWholeNodes T.Cover.boxes T.object nodes.now }
    ensures { OnOk result (map (λ t. t.now) all.new.items ≡ map (λ t. t.now) all.old.items ++ filter
        (λ t. int_le (pos (T.distances.distance_2 t (T.at point.now))) (T.Distance.number limit))
        (all_elements nodes.now)) }
{
    let mut left = nodes;
    while let Some((node, rest)) = left.split_first() {
        if distance_to(node, point).is_within(limit) {
            match node {
                RTreeNode::Leaf(t) => all.push(t)?,
                RTreeNode::Parent(parent) => add_within(&parent.children, point, limit, all)?,
            }
        }
        left = rest;
    }
    Ok(())
}
