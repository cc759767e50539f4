//! Slabs of elements, for a bulk load.

ghost use Rattle.std.specs.Prelude.{◌≡◌, ◌≢◌, ℕ, ◌<◌, ◌≤◌, ◌^◌, ◌↔◌, [], length, vec_len, IfOk, OnErr, IsTrue, suc};
ghost use Rattle.std.specs.Int.{div_ceil};
ghost use Rattle.std.specs.Iterator.{at_most};
ghost use Rattle.std.specs.List.Sorted.{IsPermutation};
ghost use Rattle.rstar_base.specs.Orders.{IsSplitAt};
ghost use Rattle.rstar_base.specs.Slabs.{IsSlabOf, GivesNextSlab, IsCutting, elements_left, slab_size_of, slabs_left, dimension_of};
ghost use Rattle.rstar_base.specs.Clusters.{IsLeastPower, IsRoot, IsClusterNumber};

use crate::envelope::Envelope;
use crate::object::{RTreeObject, partition_envelopes};
use crate::params::RTreeParams;
use crate::point::Point;
use std::alloc::AllocError;
use std::mem;

/// Cuts a list of elements into slabs along one axis (Lee and Lee 2003). The slab of the greatest keys comes
/// first.
///
/// All slabs but the last have the same length, and no element of a later slab has a greater `axis_key` than
/// one of an earlier slab. Each slab takes a list of its own, but for the last, which is never refused.
/// After a refusal the other elements are dropped and the iterator ends.
#[derive(Drop)]
pub struct ClusterGroupIterator<T> {
    remaining: Vec<T>,
    slab_size: usize,
    cluster_dimension: usize,
}

impl<T: RTreeObject> ClusterGroupIterator<T> {
    /// At most `clusters` slabs along an axis. A slab has the number of elements divided by `clusters`,
    /// rounded up. It takes no memory.
    pub fn new(elements: Vec<T>, clusters: usize, axis: usize) -> Self
        requires clusters { 0 < clusters }
        requires axis { axis < T.Envelope.Point.DIMENSIONS }
        ensures elements { elements_left result ≡ elements.items }
        ensures size { elements.items ≢ [] → slab_size_of result ≡ div_ceil (length elements.items) clusters }
        ensures axis { dimension_of result ≡ axis }
        ensures cutting { IsCutting T.Envelope.Point.DIMENSIONS result }
        ensures count { slabs_left result ≤ clusters }
    {
        let slab_size = elements.len().div_ceil(clusters).max(1);
        ClusterGroupIterator {
            remaining: elements,
            slab_size,
            cluster_dimension: axis,
        }
    }

    /// The axis along which the slabs are cut.
    pub fn cluster_dimension(&self) -> usize
        ensures { result ≡ dimension_of self.now }
    {
        self.cluster_dimension
    }

    // The next slab of a list that is not empty.
    fn take_slab(&mut self) -> Result<Vec<T>, AllocError>
        requires some { elements_left self.old ≢ [] }
        requires cutting { IsCutting T.Envelope.Point.DIMENSIONS self.old }
        ensures slab { IfOk result (λ slab. IsSlabOf
            (λ t. T.Envelope.boxes.axis_key (T.object.box_of t) (dimension_of self.old))
            (slab_size_of self.old) (elements_left self.old) slab.items (elements_left self.new)) }
        ensures fewer { slabs_left self.new < slabs_left self.old }
        ensures err { OnErr result (elements_left self.new ≡ []) }
        ensures last { OnErr result (slab_size_of self.old < length (elements_left self.old)) }
        ensures size { slab_size_of self.new ≡ slab_size_of self.old }
        ensures axis { dimension_of self.new ≡ dimension_of self.old }
    {
        let alloc = *self.remaining.allocator();
        let len = self.remaining.len();
        if len <= self.slab_size {
            return Ok(mem::replace(&mut self.remaining, Vec::new(alloc)));
        }
        let k = len - self.slab_size;
        partition_list(self.cluster_dimension, &mut self.remaining, k);
        match self.remaining.split_off(k) {
            Ok(slab) => Ok(slab),
            Err(refused) => {
                self.remaining = Vec::new(alloc);
                Err(refused)
            }
        }
    }
}

impl<T: RTreeObject> Iterator for ClusterGroupIterator<T> {
    type Item = Result<Vec<T>, AllocError>;

    ghost can_next = { IsCutting T.Envelope.Point.DIMENSIONS };

    ghost next_gives = { GivesNextSlab (λ t. T.Envelope.boxes.axis_key (T.object.box_of t)) };

    ghost remaining = { λ it. at_most (slabs_left it) };

    fn next(&mut self) -> Option<Result<Vec<T>, AllocError>> {
        if self.remaining.is_empty() {
            return None;
        }
        Some(self.take_slab())
    }
}

/// `partition_envelopes` on a `Vec`.
fn partition_list<T: RTreeObject>(axis: usize, list: &mut Vec<T>, k: usize)
    requires axis { axis < T.Envelope.Point.DIMENSIONS }
    requires place { k < vec_len list.old }
    ensures same { IsPermutation list.old.items list.new.items }
    ensures len { vec_len list.new ≡ vec_len list.old }
    ensures split { IsSplitAt (λ t. T.Envelope.boxes.axis_key (T.object.box_of t) axis) k list.new.items }
{
    partition_envelopes(axis, list, k);
}

/// How many slabs a bulk load of `n` elements cuts along each axis. The load takes 2 where this is 1 (Lee
/// and Lee 2003).
///
/// It is the root, with the number of axes as its degree and rounded down, of the number of subtrees that
/// `n` elements fill. It is exact for every `n`.
pub fn calculate_number_of_clusters_on_axis<T: RTreeObject, Params: RTreeParams>(n: usize) -> usize
    requires large { Params.MAX_SIZE < n }
    requires axes { 2 ≤ T.Envelope.Point.DIMENSIONS }
    ensures { IsClusterNumber Params.MAX_SIZE T.Envelope.Point.DIMENSIONS n result }
{
    let axes = <<T::Envelope as Envelope>::Point as Point>::DIMENSIONS;
    let subtrees = n.div_ceil(subtree_size(n, Params::MAX_SIZE));
    integer_root(subtrees, axes)
}

/// The greatest power of `base` below `n`.
fn subtree_size(n: usize, base: usize) -> usize
    requires base { 2 ≤ base }
    requires large { base < n }
    ensures positive { 0 < result }
    ensures power { (d : ℕ) × IsLeastPower base n (suc d) × (result ≡ base ^ d) }
{
    let mut power = 1;
    while power <= (n - 1) / base {
        power *= base;
    }
    power
}

/// The greatest number whose power is at most `m`.
fn integer_root(m: usize, exponent: usize) -> usize
    requires { 0 < exponent }
    ensures { IsRoot exponent m result }
{
    let mut low = 0;
    let mut high = m;
    while low < high {
        let middle = high - (high - low) / 2;
        if is_power_within(middle, exponent, m) {
            low = middle;
        } else {
            high = middle - 1;
        }
    }
    low
}

/// Whether a power is at most `limit`.
fn is_power_within(base: usize, exponent: usize, limit: usize) -> bool
    requires { 0 < base }
    ensures { IsTrue result ↔ (base ^ exponent ≤ limit) }
{
    if limit == 0 {
        return false;
    }
    let mut power = 1;
    for turn in 0..exponent {
        if limit / base < power {
            return false;
        }
        power *= base;
    }
    true
}
