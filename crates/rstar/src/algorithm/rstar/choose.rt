//! Choice of the subtree for an insertion (Beckmann et al. 1990).

ghost use Rattle.std.specs.Prelude.{◌<◌, length, IfSome};

use crate::node::RTreeNode;
use num_traits::Zero;
use rstar_base::{Distance, Envelope, RTreeNum, RTreeObject};

/// The first child of least area among those that contain the envelope.
pub(crate) fn smallest_container<T: RTreeObject>(
    children: &[RTreeNode<T>],
    envelope: &T::Envelope,
) -> Option<usize>
    ensures { IfSome result (λ i. i < length children.now) }
{
    let mut best = None;
    let mut least = Distance::<T>::zero();
    for (index, child) in children.iter().enumerate() {
        let own = child.envelope();
        if own.contains_envelope(envelope) {
            let area = own.area();
            if best.is_none() || area < least {
                best = Some(index);
                least = area;
            }
            // No area is less than 0. So a look at one of many equal points ends here.
            if least.is_zero() {
                return best;
            }
        }
    }
    best
}

/// The first child with the least area enlargement, then the least area.
pub(crate) fn least_grown<T: RTreeObject>(
    children: &[RTreeNode<T>],
    envelope: &T::Envelope,
) -> usize
    requires { 0 < length children.now }
    ensures { result < length children.now }
{
    let mut best = 0;
    let mut least = growth(&children[0], envelope);
    for index in 1..children.len() {
        let here = growth(&children[index], envelope);
        if here < least {
            best = index;
            least = here;
        }
    }
    best
}

/// The enlargement of a child's area by a new envelope, and the area afterwards.
fn growth<T: RTreeObject>(
    child: &RTreeNode<T>,
    envelope: &T::Envelope,
) -> (Distance<T>, Distance<T>) {
    let own = child.envelope();
    let area = own.merged(envelope).area();
    (area.clamped_sub(own.area()), area)
}

/// The first child with the least overlap enlargement, then the least area enlargement, then the least area.
/// `least_grown` is the first by the last two.
pub(crate) fn least_overlapping<T: RTreeObject>(
    children: &[RTreeNode<T>],
    least_grown: usize,
    envelope: &T::Envelope,
) -> usize
    requires { least_grown < length children.now }
    ensures { result < length children.now }
{
    let mut best = least_grown;
    let mut least = overlap_increase(children, best, envelope);
    // No overlap grows by less than 0. Most often that is so here, and no other child has to be looked at.
    if least.is_zero() {
        return best;
    }
    for index in 0..children.len() {
        let here = overlap_increase(children, index, envelope);
        if here < least
            || here == least
                && growth(&children[index], envelope) < growth(&children[best], envelope)
        {
            best = index;
            least = here;
        }
    }
    best
}

/// The enlargement of a child's overlaps with the other children by a new envelope.
fn overlap_increase<T: RTreeObject>(
    children: &[RTreeNode<T>],
    index: usize,
    envelope: &T::Envelope,
) -> Distance<T>
    requires { index < length children.now }
{
    let own = children[index].envelope();
    let merged = own.merged(envelope);
    let mut before = Distance::<T>::zero();
    let mut after = Distance::<T>::zero();
    for (other, child) in children.iter().enumerate() {
        let beside = child.envelope();
        // Most children lie apart, and then there is nothing to add.
        if other != index && merged.intersects(&beside) {
            before = before.clamped_add(own.intersection_area(&beside));
            after = after.clamped_add(merged.intersection_area(&beside));
        }
    }
    after.clamped_sub(before)
}
