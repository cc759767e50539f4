//! The operations on elements that an insertion needs beside their envelopes: they choose, sort and split
//! nodes.

ghost use Rattle.std.specs.Prelude.{◌≡◌, ◌+◌, ◌<◌, ◌≤◌, [], ◌++◌, length, vec_len, vec_capacity};
ghost use Rattle.std.specs.List.Sorted.{IsPermutation};

use crate::algorithm::rstar::choose::{least_grown, least_overlapping, smallest_container};
use crate::algorithm::rstar::{reinsertion, split};
use crate::bounds::Covered;
use crate::node::RTreeNode;
use rstar_base::{Envelope, RTreeObject, RTreeParams};

/// An element that an insertion can place.
pub trait Placed: Covered {
    /// The place of the child for a new envelope: of the children that contain it, the first of least area;
    /// where none does, the first with the least enlargement. `above_leaves` says that the children's children
    /// are leaves. Then the enlargement of a child's overlaps with the others comes before that of its area.
    fn choose_subtree(
        children: &[RTreeNode<Self>],
        envelope: &Self::Cover,
        above_leaves: bool,
    ) -> usize
        requires { 0 < length children.now }
        ensures { result < length children.now };

    /// Splits a list of nodes in two, each part with at least `MIN_SIZE` nodes.
    fn split_in_place<Params: RTreeParams>(
        list: &mut Vec<RTreeNode<Self>>,
        spare: &mut Vec<RTreeNode<Self>>,
    )
        requires many { Params.MAX_SIZE < vec_len list.old }
        requires empty { spare.old.items ≡ [] }
        requires room { vec_len list.old ≤ vec_capacity spare.old + Params.MIN_SIZE }
        ensures same { IsPermutation list.old.items (list.new.items ++ spare.new.items) }
        ensures lengths { vec_len list.new + vec_len spare.new ≡ vec_len list.old }
        ensures first { Params.MIN_SIZE ≤ vec_len list.new }
        ensures second { Params.MIN_SIZE ≤ vec_len spare.new }
        ensures first_capacity { vec_capacity list.new ≡ vec_capacity list.old }
        ensures second_capacity { vec_capacity spare.old ≤ vec_capacity spare.new };

    /// Sorts nodes by the distance between their centers and that of an envelope.
    fn sort_by_distance(list: &mut [RTreeNode<Self>], envelope: &Self::Cover)
        ensures { IsPermutation list.old list.new };
}

impl<T: RTreeObject> Placed for T {
    fn choose_subtree(
        children: &[RTreeNode<T>],
        envelope: &T::Envelope,
        above_leaves: bool,
    ) -> usize {
        if let Some(index) = smallest_container(children, envelope) {
            return index;
        }
        let least = least_grown(children, envelope);
        if above_leaves {
            least_overlapping(children, least, envelope)
        } else {
            least
        }
    }

    fn split_in_place<Params: RTreeParams>(
        list: &mut Vec<RTreeNode<T>>,
        spare: &mut Vec<RTreeNode<T>>,
    ) {
        split::split_in_place::<_, Params>(list, spare);
    }

    fn sort_by_distance(list: &mut [RTreeNode<T>], envelope: &T::Envelope) {
        reinsertion::sort_by_distance(list, &envelope.center());
    }
}
