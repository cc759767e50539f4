//! The nodes of a bulk load.
//!
//! The elements stay in one list. Slabs are cut in place, and each call takes its part off the end. So an
//! element moves during partitions, and then once into its leaf. The list gives its memory back on the way.

ghost use Rattle.std.specs.Prelude.{◌≡◌, ℕ, ◌+◌, ◌^◌, ◌<◌, ◌≤◌, length, map, IfOk, OnOk, vec_len};
ghost use Rattle.std.specs.List.Sorted.{IsPermutation};
ghost use Rattle.rstar.specs.declared.node.RTreeNode.{Leaf};
ghost use Rattle.rstar.specs.Nodes.{elements_of};
ghost use Rattle.rstar.specs.Loaded.{IsPartSize, GoesDeep};
ghost use Rattle.rstar.specs.inside.Loads.{AddsParts, CanLoad, IsFresh, IsFreshNode, front_of, last_of};
ghost use Rattle.rstar.specs.inside.ParentBounds.{Widens};

use crate::bounds::{Covered, InSlabs};
use crate::node::{ParentNode, RTreeNode, envelope_for_children};
use num_traits::checked_pow;
use rstar_base::RTreeParams;
use std::alloc::AllocError;

/// A leaf for each element.
fn leaves<T: Covered>(elements: Vec<T>) -> Result<Vec<RTreeNode<T>>, AllocError>
    ensures { IfOk result (λ nodes. nodes.items ≡ map Leaf elements.items) }
{
    let mut leaves = Vec::with_capacity(*elements.allocator(), elements.len())?;
    for t in elements {
        leaves.push(RTreeNode::Leaf(t))?;
    }
    Ok(leaves)
}

/// Gives back memory of a list once its elements fill less than half of it. Where that is refused, the list
/// keeps it.
fn give_back<T>(list: &mut Vec<T>)
    ensures { list.new.items ≡ list.old.items }
{
    if list.len() < list.capacity() / 2 {
        list.shrink_to_fit();
    }
}

/// Raises `widest` to the number of these nodes, where that is greater.
fn widen<A>(widest: &mut usize, nodes: &Vec<A>)
    requires counted { widest.old + 1 < 2 ^ 64 }
    ensures narrow { vec_len nodes.now ≤ widest.new }
    ensures wider { Widens widest.old widest.new }
{
    *widest = nodes.len().max(*widest);
}

/// A parent of the last `len` elements of a list, with this many levels of parents below it. The elements
/// leave the list. `widest` is raised to the greatest number of children of a parent.
#[cycle(load)]
pub(crate) fn load_node<T: InSlabs, Params: RTreeParams>(
    list: &mut Vec<T>,
    len: usize,
    below: usize,
    widest: &mut usize,
) -> Result<ParentNode<T>, AllocError>
    requires part { CanLoad T.Cover.boxes T.object len list.old.items widest.old }
    requires dimensions { 2 ≤ T.axes }
    requires deep { GoesDeep Params.MAX_SIZE T.axes below len }
    ensures left { OnOk result (list.new.items ≡ front_of len list.old.items) }
    ensures same { IfOk result (λ parent. IsPermutation (last_of len list.old.items) (elements_of parent)) }
    ensures fresh { IfOk result (IsFresh T.Cover.boxes T.object Params.MAX_SIZE widest.new T.axes below) }
    ensures wider { OnOk result (Widens widest.old widest.new) }
{
    if below == 0 {
        let elements = list.split_off(list.len() - len)?;
        give_back(list);
        let envelope = T::envelope_of_all(&elements);
        let children = leaves(elements)?;
        widen(widest, &children);
        return Ok(ParentNode { children, envelope });
    }
    let clusters = T::slabs_on_axis::<Params>(len);
    let axes = T::axes();
    let most = checked_pow(clusters, axes).unwrap_or(len).min(len);
    let mut children = Vec::with_capacity(*list.allocator(), most)?;
    load_parts::<T, Params>(list, len, axes, clusters, below - 1, &mut children, widest)?;
    widen(widest, &children);
    let envelope = envelope_for_children(&children);
    Ok(ParentNode { children, envelope })
}

/// Takes off the last `len` elements of a list, cuts them into slabs along each of the first axes, and
/// pushes a node for each part.
#[cycle(load)]
fn load_parts<T: InSlabs, Params: RTreeParams>(
    list: &mut Vec<T>,
    len: usize,
    axes: usize,
    clusters: usize,
    below: usize,
    nodes: &mut Vec<RTreeNode<T>>,
    widest: &mut usize,
) -> Result<(), AllocError>
    requires part { CanLoad T.Cover.boxes T.object len list.old.items widest.old }
    requires dimensions { 2 ≤ T.axes }
    requires axes { axes ≤ T.axes }
    requires clusters { 2 ≤ clusters }
    requires deep { (m : ℕ) → IsPartSize clusters axes len m → GoesDeep Params.MAX_SIZE T.axes below m }
    ensures left { OnOk result (list.new.items ≡ front_of len list.old.items) }
    ensures adds { OnOk result (AddsParts (λ t axis. T.Cover.boxes.axis_key (T.object.box_of t) axis)
        (IsFreshNode T.Cover.boxes T.object Params.MAX_SIZE widest.new T.axes below)
        clusters axes (last_of len list.old.items) nodes.old.items nodes.new.items) }
    ensures wider { OnOk result (Widens widest.old widest.new) }
{
    if axes == 0 {
        let node = load_node::<T, Params>(list, len, below, widest)?;
        nodes.push(RTreeNode::Parent(node))?;
        return Ok(());
    }
    let size = len.div_ceil(clusters);
    let mut rest = len;
    while 0 < rest {
        let slab = T::cut_slab(axes - 1, list, rest, size);
        load_parts::<T, Params>(list, slab, axes - 1, clusters, below, nodes, widest)?;
        rest -= slab;
    }
    Ok(())
}
