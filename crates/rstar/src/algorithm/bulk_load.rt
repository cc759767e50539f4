//! Bulk loading, after Lee and Lee, "OMT: Overlap Minimizing Top-down Bulk Loading Algorithm for R-tree"
//! (2003).

ghost use Rattle.std.specs.Prelude.{◌≢◌, ◌≤◌, ◌↔◌, [], IsTrue, IfOk};
ghost use Rattle.std.specs.List.Sorted.{IsPermutation};
ghost use Rattle.rstar.specs.Nodes.{elements_of, IsWhole};
ghost use Rattle.rstar.specs.Lists.{NoneEmpty};
ghost use Rattle.rstar.specs.Loaded.{IsLoaded};

pub(crate) mod depth;
pub(crate) mod parts;

use crate::algorithm::bulk_load::depth::load_depth;
use crate::algorithm::bulk_load::parts::load_node;
use crate::node::ParentNode;
pub use rstar_base::clusters::{ClusterGroupIterator, calculate_number_of_clusters_on_axis};
use rstar_base::{Envelope, Point, RTreeObject, RTreeParams};
use std::alloc::AllocError;

/// The root of a tree loaded with these elements (Lee and Lee 2003).
///
/// There is at least one element, and none has an empty envelope. A node of too many elements is cut into
/// slabs of equal length along the last axis, each slab along the axis before, and so on. Each part becomes
/// a child, and all leaves lie on one level. The cost is one partition for each slab of each axis on each
/// level: about n log n calls of `axis_key`. A refusal of memory drops the elements.
pub fn bulk_load_sequential<T: RTreeObject, Params: RTreeParams>(
    mut elements: Vec<T>,
) -> Result<ParentNode<T>, AllocError>
    requires some { elements.items ≢ [] }
    requires elements { NoneEmpty T.Envelope.boxes.is_empty T.object.box_of elements.items }
    requires dimensions { 2 ≤ T.Envelope.Point.DIMENSIONS }
    ensures same { IfOk result (λ root. IsPermutation elements.items (elements_of root)) }
    ensures whole { IfOk result (IsWhole T.Envelope.boxes T.object) }
    ensures loaded { IfOk result (IsLoaded T.Envelope.boxes T.object Params.MAX_SIZE T.Envelope.Point.DIMENSIONS) }
{
    let mut widest = Params::MAX_SIZE;
    let len = elements.len();
    let levels = load_depth::<T, Params>(len);
    load_node::<_, Params>(&mut elements, len, levels, &mut widest)
}

/// Whether no element has an empty envelope, as bulk loads ask.
pub fn none_empty<T: RTreeObject>(elements: &[T]) -> bool
    ensures { IsTrue result ↔ NoneEmpty T.Envelope.boxes.is_empty T.object.box_of elements.now }
{
    for element in elements {
        if element.envelope().is_empty() {
            return false;
        }
    }
    true
}
