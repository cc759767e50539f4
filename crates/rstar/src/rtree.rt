//! The tree.

ghost use Rattle.std.specs.Prelude.{◌≡◌, ◌⊎◌, ◌∷◌, ◌+◌, ◌^◌, ◌<◌, ◌≤◌, [], false, length, OnOk, IfSome, IfNone};
ghost use Rattle.std.specs.List.Sorted.{IsPermutation};
ghost use Rattle.rstar.specs.Heights.{height_of, levels_below, spare_lists};
ghost use Rattle.rstar.specs.Insertions.{Inserts};
ghost use Rattle.rstar.specs.inside.ParentBounds.{IsKeptTree, roomy_of};
ghost use Rattle.rstar.specs.inside.Reserves.{IsReady, Spends};
ghost use Rattle.rstar.specs.Nodes.{children_of, elements_of, envelope_of, IsWhole};
ghost use Rattle.rstar.specs.Shapes.{IsSized};
ghost use Rattle.rstar.specs.Trees.{root_of, size_of, elements_in, IsUnchanged, IsWholeTree};

mod copies;
mod drains;
mod joins;
mod loads;
pub mod nearby;
mod neighbours;
mod payloads;
mod removal;
mod selections;
mod texts;
mod visits;

use crate::algorithm::rstar::RStarInsertionStrategy;
use crate::algorithm::rstar::preparation::{Reserve, top_up};
use crate::algorithm::rstar::reinsertion::insert_with_reinsertion;
use crate::node::{ParentNode, RTreeNode};
use crate::params::{InsertError, InsertionStrategy};
use rstar_base::{DefaultParams, Envelope, Point, RTreeObject, RTreeParams};
use std::alloc::{AllocError, Global};
use std::marker::PhantomData;

/// An R*-tree: an index of elements by their envelopes.
///
/// Every call leaves the tree whole: the envelope of a parent is the merge of those of the elements below
/// it, all leaves lie on one level, and `size` counts the elements.
///
/// ```rust
/// fn two_points(alloc: Global) -> Result<usize, InsertError<[i64; 2]>> {
///     let mut tree = RTree::new(alloc);
///     tree.insert([1, 2])?;
///     tree.insert([3, 4])?;
///     Ok(tree.size())
/// }
/// ```
/// *`crates/rstar_vectors/src/places.rt`*
#[derive(Drop)]
pub struct RTree<T: RTreeObject, Params: RTreeParams = DefaultParams> {
    root: ParentNode<T>,
    size: usize,
    // The levels of parents below the root; all leaves lie below the last of them.
    levels: usize,
    reserve: Reserve<RTreeNode<T>>,
    params: PhantomData<Params>,
}

impl<T: RTreeObject> RTree<T> {
    /// The empty tree with the default node sizes. It takes no memory. The points have at least two axes;
    /// `verify_parameters` tests that.
    ///
    /// ```rust
    /// pub fn new(alloc: Global) -> Fences
    ///     ensures { result ≡ [] }
    /// {
    ///     Fences {
    ///         tree: RTree::new(alloc),
    ///     }
    /// }
    /// ```
    /// *`crates/rstar_uses/src/geofence.rt`*
    pub fn new(alloc: Global) -> Self
        requires dimensions { 2 ≤ T.Envelope.Point.DIMENSIONS }
        ensures none { elements_in result ≡ [] }
        ensures whole { IsWholeTree T.Envelope.boxes T.object ⟦<DefaultParams as RTreeParams>⟧.MAX_SIZE result }
        ensures sized { IsSized ⟦<DefaultParams as RTreeParams>⟧.MIN_SIZE ⟦<DefaultParams as RTreeParams>⟧.MAX_SIZE
            (root_of result) }
    {
        RTree::new_with_params(alloc)
    }
}

impl<T: RTreeObject, Params: RTreeParams> RTree<T, Params> {
    /// The empty tree with chosen node sizes. It takes no memory. The points have at least two axes;
    /// `verify_parameters` tests that.
    pub fn new_with_params(alloc: Global) -> Self
        requires dimensions { 2 ≤ T.Envelope.Point.DIMENSIONS }
        ensures none { elements_in result ≡ [] }
        ensures whole { IsWholeTree T.Envelope.boxes T.object Params.MAX_SIZE result }
        ensures sized { IsSized Params.MIN_SIZE Params.MAX_SIZE (root_of result) }
    {
        RTree::default(alloc)
    }

    /// The empty tree, for points of any number of axes. It takes no memory.
    #[tactic(auto, unfolding(crate::specs::Trees::IsWholeTree))]
    pub fn default(alloc: Global) -> Self
        ensures none { elements_in result ≡ [] }
        ensures children { children_of (root_of result) ≡ [] }
        ensures envelope { envelope_of (root_of result) ≡ T.Envelope.boxes.empty }
        ensures whole { IsWholeTree T.Envelope.boxes T.object Params.MAX_SIZE result }
        ensures sized { IsSized Params.MIN_SIZE Params.MAX_SIZE (root_of result) }
    {
        RTree {
            root: ParentNode {
                children: Vec::new(alloc),
                envelope: T::Envelope::new_empty(),
            },
            size: 0,
            levels: 0,
            reserve: Reserve::new(alloc, Params::MAX_SIZE),
            params: PhantomData,
        }
    }

    /// The root. It is a parent; where the tree is empty it has no children.
    #[tactic(auto, unfolding(crate::specs::Trees::IsWholeTree))]
    pub fn root(&self) -> &ParentNode<T>
        ensures shown { result.now ≡ root_of self.now }
        ensures whole { IsWholeTree T.Envelope.boxes T.object Params.MAX_SIZE self.now
            → IsWhole T.Envelope.boxes T.object result.now }
    {
        &self.root
    }

    /// The number of elements. Equal elements each count.
    #[tactic(auto, unfolding(crate::specs::Trees::IsWholeTree))]
    pub fn size(&self) -> usize
        ensures shown { result ≡ size_of self.now }
        ensures counted { IsWholeTree T.Envelope.boxes T.object Params.MAX_SIZE self.now
            → result ≡ length (elements_in self.now) }
    {
        self.size
    }

    /// Inserts an element by `RStarInsertionStrategy`. Its envelope is not empty. Equal elements each count.
    ///
    /// All memory is taken before the first change. A refusal hands the element back and leaves the tree as
    /// it was; `InsertCause` says when it comes. The cost is one path from the root to a leaf, with a look
    /// at each child beside it, and splits and reinsertions where nodes are overfull.
    ///
    /// ```rust
    /// pub fn add(&mut self, fence: Fence) -> Result<(), InsertError<Fence>>
    ///     requires filled { is_empty_box (box_of fence) ≡ false }
    ///     ensures added { OnOk result (IsPermutation (fence ∷ self.old) self.new) }
    ///     ensures handed_back { IfErr result (λ refused. refused.element ≡ fence) }
    ///     ensures unchanged { OnErr result (self.new ≡ self.old) }
    /// {
    ///     self.tree.insert(fence)
    /// }
    /// ```
    /// *`crates/rstar_uses/src/geofence.rt`*
    pub fn insert(&mut self, t: T) -> Result<(), InsertError<T>>
        requires whole { IsWholeTree T.Envelope.boxes T.object Params.MAX_SIZE self.old }
        requires element { T.Envelope.boxes.is_empty (T.object.box_of t) ≡ false }
        ensures { Inserts T.Envelope.boxes T.object Params.MIN_SIZE Params.MAX_SIZE Params.REINSERTION_COUNT
            t self.old result self.new }
    {
        RStarInsertionStrategy::insert(self, t)
    }

    /// The tree of this root, with this many elements and levels of parents, and at most this many children
    /// of a parent.
    pub(crate) fn from_root(
        alloc: Global,
        root: ParentNode<T>,
        size: usize,
        levels: usize,
        widest: usize,
    ) -> Self
        requires kept { IsKeptTree T.Envelope.boxes T.object widest levels root }
        requires counted { size ≡ length (elements_of root) }
        requires wide { Params.MAX_SIZE ≤ widest }
        requires fits { widest + 1 < 2 ^ 64 }
        ensures root { root_of result ≡ root }
        ensures size { size_of result ≡ size }
        ensures whole { IsWholeTree T.Envelope.boxes T.object Params.MAX_SIZE result }
    {
        RTree {
            root,
            size,
            levels,
            reserve: Reserve::new(alloc, widest),
            params: PhantomData,
        }
    }

    /// The number of levels of parents below the root.
    #[tactic(auto, unfolding(crate::specs::Trees::IsWholeTree))]
    pub(crate) fn levels(&self) -> usize
        requires { IsWholeTree T.Envelope.boxes T.object Params.MAX_SIZE self.now }
        ensures { result ≡ levels_below (children_of (root_of self.now)) }
    {
        self.levels
    }

    /// The number of spare lists for an insertion; `None` where the tree cannot count one more element, or
    /// not the lists.
    #[tactic(auto, unfolding(crate::specs::Trees::IsWholeTree))]
    pub(crate) fn lists_to_prepare(&self) -> Option<usize>
        requires { IsWholeTree T.Envelope.boxes T.object Params.MAX_SIZE self.now }
        ensures some { IfSome result (λ n. (n ≡ spare_lists Params.REINSERTION_COUNT (height_of (root_of self.now)))
            × (size_of self.now < usize.MAX)) }
        ensures none { IfNone result ((size_of self.now ≡ usize.MAX)
            ⊎ (usize.MAX < spare_lists Params.REINSERTION_COUNT (height_of (root_of self.now)))) }
    {
        if self.size == usize::MAX {
            return None;
        }
        let each = self
            .levels
            .checked_add(1)?
            .checked_add(Params::REINSERTION_COUNT)?
            .checked_add(2)?;
        Params::REINSERTION_COUNT.max(1).checked_mul(each)
    }

    /// Takes the memory of an insertion with this many spare lists.
    #[tactic(auto, unfolding(crate::specs::Trees::IsWholeTree))]
    pub(crate) fn prepare(&mut self, wanted: usize) -> Result<(), AllocError>
        requires whole { IsWholeTree T.Envelope.boxes T.object Params.MAX_SIZE self.old }
        ensures unchanged { IsUnchanged self.old self.new }
        ensures same { children_of (root_of self.new) ≡ children_of (root_of self.old) }
        ensures whole { IsWholeTree T.Envelope.boxes T.object Params.MAX_SIZE self.new }
        ensures ready { OnOk result (IsReady Params.MAX_SIZE wanted self.new.reserve) }
    {
        let alloc = *self.root.children.allocator();
        top_up(&mut self.reserve.spares, wanted, self.reserve.widest, alloc)?;
        self.reserve.overfull.reserve(self.reserve.widest + 1)
    }

    /// Inserts an element into prepared memory.
    #[tactic(auto, unfolding(crate::specs::Trees::IsWholeTree))]
    pub(crate) fn insert_prepared(&mut self, t: T)
        requires whole { IsWholeTree T.Envelope.boxes T.object Params.MAX_SIZE self.old }
        requires element { T.Envelope.boxes.is_empty (T.object.box_of t) ≡ false }
        requires ready { IsReady Params.MAX_SIZE (spare_lists Params.REINSERTION_COUNT (height_of (root_of self.old)))
            self.old.reserve }
        requires count { size_of self.old < usize.MAX }
        ensures added { IsPermutation (t ∷ elements_in self.old) (elements_in self.new) }
        ensures counted { size_of self.new ≡ size_of self.old + 1 }
        ensures whole { IsWholeTree T.Envelope.boxes T.object Params.MAX_SIZE self.new }
        ensures sized { IsSized Params.MIN_SIZE Params.MAX_SIZE (root_of self.old)
            → IsSized Params.MIN_SIZE Params.MAX_SIZE (root_of self.new) }
        ensures spends { Spends (λ n. roomy_of n self.old.levels (root_of self.old))
            (λ n. roomy_of n self.new.levels (root_of self.new)) self.old.reserve self.new.reserve }
    {
        self.levels = insert_with_reinsertion::<_, Params>(
            &mut self.root,
            t,
            self.levels,
            &mut self.reserve,
        );
        self.size += 1;
    }
}
