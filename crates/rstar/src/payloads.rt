//! The path down to one element, and a mutable borrow of its payload.

ghost use Rattle.std.specs.Prelude.{◌≡◌, ◌<◌, length};
ghost use Rattle.std.specs.Borrow.{sem};
ghost use Rattle.rstar_base.specs.Points.{table};
ghost use Rattle.rstar.specs.declared.node.RTreeNode.{Leaf, Parent};
ghost use Rattle.rstar.specs.Payloads.{LendsData, LendsBelow, IsAtPayload};
ghost use Rattle.rstar.specs.Nodes.{layer_of};
ghost use Rattle.rstar.specs.inside.WaysDown.{finds_at, first_at, way_to, child_at, IsLeaf, IsParent, Leads, LeadsBelow, IsAt, LendsLeaf, LendsParent, LendsChild, LendsElement};

use crate::node::{ParentNode, RTreeNode};
use rstar_base::primitives::GeomWithData;
use rstar_base::{Envelope, Point, PointDistance, PointOf, RTreeObject};

/// Whether an element below a node contains the point. Only parents whose envelopes contain it are visited.
#[cycle(finding)]
fn finds<T: PointDistance>(node: &RTreeNode<T>, point: &PointOf<T>) -> bool
    ensures { result ≡ finds_at T.Envelope.boxes T.distances
        (table T.Envelope.Point.DIMENSIONS (T.Envelope.Point.coord point.now)) node.now }
{
    match node {
        RTreeNode::Leaf(t) => t.contains_point(point),
        RTreeNode::Parent(parent) => {
            parent.envelope.contains_point(point)
                && first_finding(parent.children.as_slice(), point) < parent.children.len()
        }
    }
}

/// The place of the first node below which an element contains the point; the number of nodes where there is
/// none.
#[cycle(finding)]
pub(crate) fn first_finding<T: PointDistance>(nodes: &[RTreeNode<T>], point: &PointOf<T>) -> usize
    ensures { result ≡ first_at T.Envelope.boxes T.distances
        (table T.Envelope.Point.DIMENSIONS (T.Envelope.Point.coord point.now)) nodes.now }
{
    let mut rest = nodes;
    let mut index = 0;
    while let Some((first, more)) = rest.split_first() {
        if finds(first, point) {
            return index;
        }
        rest = more;
        index += 1;
    }
    index
}

/// A mutable borrow of the element of a leaf.
fn leaf_in<'a, T: RTreeObject>(node: &'a mut RTreeNode<T>) -> &'a mut T
    requires { IsLeaf (layer_of node.old) }
    ensures* writes_back { sem 𝓛 (LendsLeaf T.row T.Envelope.row node.entry result) }
    ensures value { Leaf result.now ≡ node.old }
{
    match node {
        RTreeNode::Leaf(t) => t,
        RTreeNode::Parent(_) => unreachable!(),
    }
}

/// A mutable borrow of a parent node.
fn parent_in<'a, T: RTreeObject>(node: &'a mut RTreeNode<T>) -> &'a mut ParentNode<T>
    requires { IsParent (layer_of node.old) }
    ensures* writes_back { sem 𝓛 (LendsParent T.row T.Envelope.row node.entry result) }
    ensures value { Parent result.now ≡ node.old }
{
    match node {
        RTreeNode::Leaf(_) => unreachable!(),
        RTreeNode::Parent(parent) => parent,
    }
}

/// A mutable borrow of the child at a place.
fn child_of<'a, T: RTreeObject>(parent: &'a mut ParentNode<T>, index: usize) -> &'a mut RTreeNode<T>
    requires { index < length parent.old.children.items }
    ensures* writes_back { sem 𝓛 (LendsChild T.row T.Envelope.row parent.entry index result) }
    ensures value { result.now ≡ child_at parent.old index }
{
    &mut parent.children[index]
}

/// The first child below which an element contains the point.
fn child_with<'a, T: PointDistance>(
    parent: &'a mut ParentNode<T>,
    point: &PointOf<T>,
) -> &'a mut RTreeNode<T>
    requires { way_to T.Envelope.boxes T.distances
        (table T.Envelope.Point.DIMENSIONS (T.Envelope.Point.coord point.now)) parent.old
        < length parent.old.children.items }
    ensures* writes_back { sem 𝓛 (LendsChild T.row T.Envelope.row parent.entry (way_to T.Envelope.boxes T.distances
        (table T.Envelope.Point.DIMENSIONS (T.Envelope.Point.coord point.now)) parent.old) result) }
    ensures value { result.now ≡ child_at parent.old (way_to T.Envelope.boxes T.distances
        (table T.Envelope.Point.DIMENSIONS (T.Envelope.Point.coord point.now)) parent.old) }
{
    let index = first_finding(parent.children.as_slice(), point);
    child_of(parent, index)
}

/// The element that contains the point on the first path, this many levels below the node.
fn element_with<'a, T: PointDistance>(
    node: &'a mut RTreeNode<T>,
    point: &PointOf<T>,
    depth: usize,
) -> &'a mut T
    requires { Leads (way_to T.Envelope.boxes T.distances
        (table T.Envelope.Point.DIMENSIONS (T.Envelope.Point.coord point.now))) depth (layer_of node.old) }
    ensures* writes_back { sem 𝓛 (LendsElement T.row T.Envelope.row (way_to T.Envelope.boxes T.distances
        (table T.Envelope.Point.DIMENSIONS (T.Envelope.Point.coord point.now))) node.entry depth result) }
    ensures value { IsAt (way_to T.Envelope.boxes T.distances
        (table T.Envelope.Point.DIMENSIONS (T.Envelope.Point.coord point.now))) depth (layer_of node.old) result.now }
{
    if depth == 0 {
        leaf_in(node)
    } else {
        element_with(child_with(parent_in(node), point), point, depth - 1)
    }
}

/// A mutable borrow of the payload of an element.
fn data_of<'a, R: RTreeObject, D: Drop>(element: &'a mut GeomWithData<R, D>) -> &'a mut D
    ensures* writes_back { sem 𝓛 (LendsData R.row D.row element.entry result) }
    ensures value { result.now ≡ element.old.1 }
{
    &mut element.data
}

/// The payload of the element that contains the point on the first path, from this child of the parent on.
pub(crate) fn payload_below<'a, R: PointDistance, D: Drop>(
    parent: &'a mut ParentNode<GeomWithData<R, D>>,
    index: usize,
    point: &PointOf<R>,
    depth: usize,
) -> &'a mut D
    requires begins { index ≡ way_to R.Envelope.boxes ⟦<GeomWithData<R, D> as PointDistance>⟧.distances
        (table R.Envelope.Point.DIMENSIONS (R.Envelope.Point.coord point.now)) parent.old }
    requires leads { LeadsBelow (way_to R.Envelope.boxes ⟦<GeomWithData<R, D> as PointDistance>⟧.distances
        (table R.Envelope.Point.DIMENSIONS (R.Envelope.Point.coord point.now))) depth parent.old }
    ensures* writes_back { sem 𝓛 (LendsBelow R.row D.row R.Envelope.row
        (way_to R.Envelope.boxes ⟦<GeomWithData<R, D> as PointDistance>⟧.distances
        (table R.Envelope.Point.DIMENSIONS (R.Envelope.Point.coord point.now))) parent.entry depth result) }
    ensures value { IsAtPayload (way_to R.Envelope.boxes ⟦<GeomWithData<R, D> as PointDistance>⟧.distances
        (table R.Envelope.Point.DIMENSIONS (R.Envelope.Point.coord point.now))) depth
        (layer_of (child_at parent.old (way_to R.Envelope.boxes ⟦<GeomWithData<R, D> as PointDistance>⟧.distances
        (table R.Envelope.Point.DIMENSIONS (R.Envelope.Point.coord point.now)) parent.old))) result.now }
{
    data_of(element_with(child_of(parent, index), point, depth))
}
