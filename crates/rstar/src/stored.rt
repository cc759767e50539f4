//! The stored form of a tree of points.
//!
//! All numbers are little-endian. First come the bytes `RST1`, the number of points (`u64`), the number of
//! levels of parents (`u8`, at most 64), and the root where that number is not 0. A parent is the number of
//! its children (`u64`, at least 1), the lower and the upper corner of its box, and its children in order. A
//! leaf is its point, two `i64`.

ghost use Rattle.std.specs.Prelude.{◌≡◌, ◌⊎◌, ◌++◌, Err, suc, ◌≢◌, IfErr, ◌∷◌, [], List, ◌≤◌, ◌<◌, ◌+◌, ◌*◌, ◌^◌, ℕ, length, map, min, IfOk, OnOk, vec_len, vec_capacity};
ghost use Rattle.rstar.specs.declared.stored.StoredError.TheVariants.{NoMemory, TooHigh};
ghost use Rattle.rstar.specs.inside.Appends.{Appends};
ghost use Rattle.rstar.specs.inside.ParentBounds.{IsKeptTree, AreKept, Widens};
ghost use Rattle.rstar.specs.Nodes.{IsElement, IsInner, elements, all_elements, elements_of};
ghost use Rattle.rstar.specs.Heights.{height_of};
ghost use Rattle.rstar.specs.Shapes.{IsParentTree};
ghost use Rattle.rstar_base.specs.Points.{IsPoint};
ghost use Rattle.rstar.specs.Shown.{shown, shown_root};
ghost use Rattle.rstar.specs.Stored.{Tree, boxes, places, low, high, IsStored, Spells, magic, number, point, spelling, stored_size};
ghost use Rattle.rstar.specs.StoredFaults.{HasFault, IsOnlyFault};
ghost use Rattle.rstar.specs.StoredReading.{Gives, number_at, coordinate_at, point_at, each_at, has_corners, parent_at, node_at, root_at, levels_at, tree_at};
ghost use Rattle.rstar.specs.Trees.{root_of, IsWholeTree};

use crate::node::{ParentNode, RTreeNode, envelope_for_children};
use crate::rtree::RTree;
use rstar_base::point::known;
use rstar_base::{AABB, RTreeParams};
use std::alloc::{AllocError, AllocFailed, Global};

/// Why a tree was not read or not written.
#[derive(Clone, Copy, Debug, PartialEq, Eq)]
pub enum StoredError {
    /// A part is too short.
    Truncated = 1,
    /// The first four bytes are not `RST1`.
    BadMagic = 2,
    /// A height above 64, or a parent without children.
    BadLevel = 3,
    /// A box that is not the merge of the boxes below it.
    BadBox = 4,
    /// The number of points is not that of the leaves.
    BadCount = 5,
    /// Bytes follow the tree.
    Trailing = 6,
    /// The allocator refused memory.
    NoMemory = 7,
    /// The tree has more than 64 levels of parents, and is not written.
    TooHigh = 8,
}

impl From<AllocError> for StoredError {
    ghost from_gives = { λ _ e. e ≡ NoMemory };

    fn from(_e: AllocError) -> StoredError {
        StoredError::NoMemory
    }
}

impl<T: Drop> From<AllocFailed<T>> for StoredError {
    ghost from_gives = { λ _ e. e ≡ NoMemory };

    fn from(_e: AllocFailed<T>) -> StoredError {
        StoredError::NoMemory
    }
}

/// A number of eight bytes, and the bytes after it.
#[tactic(auto, unfolding(crate::specs::StoredReading::number_at))]
fn number_at(bytes: &[u8]) -> Result<(u64, &[u8]), StoredError>
    ensures read { Gives (λ x. (x.0, x.1.now)) result (number_at bytes.now) }
    ensures len { IfOk result (λ x. length x.1.now + 8 ≡ length bytes.now) }
{
    match bytes.split_first_chunk::<8>() {
        Some((front, rest)) => Ok((u64::from_le_bytes(*front), rest)),
        None => Err(StoredError::Truncated),
    }
}

/// A point, and the bytes after it.
#[tactic(auto, unfolding(crate::specs::StoredReading::point_at, crate::specs::StoredReading::coordinate_at))]
fn point_at(bytes: &[u8]) -> Result<([i64; 2], &[u8]), StoredError>
    ensures read { Gives (λ x. (x.0, x.1.now)) result (point_at bytes.now) }
    ensures len { IfOk result (λ x. length x.1.now + 16 ≡ length bytes.now) }
{
    let (x, rest) = number_at(bytes)?;
    let (y, rest) = number_at(rest)?;
    Ok(([x.cast_signed(), y.cast_signed()], rest))
}

/// Whether a box has these corners.
fn has_corners(envelope: &AABB<[i64; 2]>, lower: [i64; 2], upper: [i64; 2]) -> bool
    ensures { result ≡ has_corners lower upper envelope.now }
{
    envelope.lower() == lower && envelope.upper() == upper
}

/// A node with leaves this many levels below, and the bytes after it. `widest` is raised to the greatest
/// number of children, and `points` by the number of points.
#[cycle(read)]
#[tactic(auto, unfolding(crate::specs::StoredReading::node_at, crate::specs::StoredReading::leaf_at))]
fn node_at<'a>(
    alloc: Global,
    bytes: &'a [u8],
    height: usize,
    widest: &mut usize,
    points: &mut usize,
) -> Result<(RTreeNode<[i64; 2]>, &'a [u8]), StoredError>
    requires counted { widest.old + 1 < 2 ^ 64 }
    requires points { points.old + length bytes.now < 2 ^ 64 }
    ensures read { Gives (λ x. (shown x.0, x.1.now)) result (node_at height bytes.now) }
    ensures kept { IfOk result (λ x. AreKept boxes places widest.new height (x.0 ∷ [])) }
    ensures wider { OnOk result (Widens widest.old widest.new) }
    ensures points { IfOk result (λ x. points.new ≡ points.old + length (elements x.0)) }
    ensures left { IfOk result (λ x. points.new + length x.1.now ≤ points.old + length bytes.now) }
{
    if height == 0 {
        let (point, rest) = point_at(bytes)?;
        *points += 1;
        return Ok((RTreeNode::Leaf(point), rest));
    }
    let (parent, rest) = parent_at(alloc, bytes, height - 1, widest, points)?;
    Ok((RTreeNode::Parent(parent), rest))
}

/// A parent with this many levels of parents below it, and the bytes after it. Memory for the children is
/// taken only where enough bytes follow.
#[cycle(read)]
#[tactic(auto, unfolding(crate::specs::StoredReading::parent_at, crate::specs::StoredReading::children_at))]
fn parent_at<'a>(
    alloc: Global,
    bytes: &'a [u8],
    below: usize,
    widest: &mut usize,
    points: &mut usize,
) -> Result<(ParentNode<[i64; 2]>, &'a [u8]), StoredError>
    requires counted { widest.old + 1 < 2 ^ 64 }
    requires points { points.old + length bytes.now < 2 ^ 64 }
    ensures read { Gives (λ x. (shown_root x.0, x.1.now)) result (parent_at (node_at below) bytes.now) }
    ensures kept { IfOk result (λ x. IsKeptTree boxes places widest.new below x.0) }
    ensures wider { OnOk result (Widens widest.old widest.new) }
    ensures points { IfOk result (λ x. points.new ≡ points.old + length (elements_of x.0)) }
    ensures left { IfOk result (λ x. points.new + length x.1.now ≤ points.old + length bytes.now) }
{
    let (count, rest) = number_at(bytes)?;
    if count == 0 {
        return Err(StoredError::BadLevel);
    }
    if rest.len() < 32 || (rest.len() as u64 - 32) / 16 < count {
        return Err(StoredError::Truncated);
    }
    let (lower, rest) = point_at(rest)?;
    let (upper, rest) = point_at(rest)?;
    let (children, rest) = children_at(alloc, rest, count as usize, below, widest, points)?;
    let envelope = envelope_for_children(&children);
    if !has_corners(&envelope, lower, upper) {
        return Err(StoredError::BadBox);
    }
    *widest = children.len().max(*widest);
    Ok((ParentNode { children, envelope }, rest))
}

/// This many nodes with leaves this many levels below, and the bytes after them. So many leaves fit into the bytes.
#[cycle(read)]
fn children_at<'a>(
    alloc: Global,
    bytes: &'a [u8],
    count: usize,
    below: usize,
    widest: &mut usize,
    points: &mut usize,
) -> Result<(Vec<RTreeNode<[i64; 2]>>, &'a [u8]), StoredError>
    requires counted { widest.old + 1 < 2 ^ 64 }
    requires points { points.old + length bytes.now < 2 ^ 64 }
    requires there { 16 * count ≤ length bytes.now }
    ensures read { Gives (λ x. (map shown x.0.items, x.1.now)) result (each_at (node_at below) count bytes.now) }
    ensures kept { IfOk result (λ x. AreKept boxes places widest.new below x.0.items) }
    ensures len { IfOk result (λ x. vec_len x.0 ≡ count) }
    ensures wider { OnOk result (Widens widest.old widest.new) }
    ensures points { IfOk result (λ x. points.new ≡ points.old + length (all_elements x.0.items)) }
    ensures left { IfOk result (λ x. points.new + length x.1.now ≤ points.old + length bytes.now) }
{
    let mut children = Vec::with_capacity(alloc, count)?;
    let mut rest = bytes;
    for _ in 0..count {
        let (node, after) = node_at(alloc, rest, below, widest, points)?;
        children.push_reserved(node);
        rest = after;
    }
    Ok((children, rest))
}

/// The tree after its number of points.
#[tactic(auto, unfolding(crate::specs::StoredReading::levels_at, crate::specs::StoredReading::root_at, crate::specs::StoredReading::node_at))]
fn tree_after<Params: RTreeParams>(
    alloc: Global,
    count: u64,
    bytes: &[u8],
) -> Result<RTree<[i64; 2], Params>, StoredError>
    ensures read { Gives (λ tree. shown_root (root_of tree)) result (levels_at count bytes.now) }
    ensures whole { IfOk result (IsWholeTree boxes places Params.MAX_SIZE) }
{
    let (&height, rest) = bytes.split_first().ok_or(StoredError::Truncated)?;
    if height > 64 {
        return Err(StoredError::BadLevel);
    }
    if height == 0 {
        if count != 0 {
            return Err(StoredError::BadCount);
        }
        if !rest.is_empty() {
            return Err(StoredError::Trailing);
        }
        return Ok(RTree::default(alloc));
    }
    let below = height as usize - 1;
    let mut widest = Params::MAX_SIZE;
    let mut points = 0;
    let (root, rest) = parent_at(alloc, rest, below, &mut widest, &mut points)?;
    if points as u64 != count {
        return Err(StoredError::BadCount);
    }
    if !rest.is_empty() {
        return Err(StoredError::Trailing);
    }
    Ok(RTree::from_root(alloc, root, points, below, widest))
}

/// The tree of all bytes.
#[tactic(auto, unfolding(crate::specs::StoredReading::tree_at))]
fn tree_of<Params: RTreeParams>(
    alloc: Global,
    bytes: &[u8],
) -> Result<RTree<[i64; 2], Params>, StoredError>
    ensures read { Gives (λ tree. shown_root (root_of tree)) result (tree_at bytes.now) }
    ensures whole { IfOk result (IsWholeTree boxes places Params.MAX_SIZE) }
{
    let Some((front, rest)) = bytes.split_first_chunk::<4>() else {
        return Err(StoredError::Truncated);
    };
    if front != b"RST1" {
        return Err(StoredError::BadMagic);
    }
    let (count, rest) = number_at(rest)?;
    tree_after(alloc, count, rest)
}

/// The tree that the bytes spell. It takes insertions, removals and drains as any other.
///
/// A refusal other than `NoMemory` names the first fault from left to right. A box is compared after its
/// last child, the number of points after the root. A child count that the bytes cannot hold is refused
/// before memory is taken. The cost is one pass over the bytes, with one list and one merge for each parent.
///
/// ```rust
/// fn unpacked<R: Read + Drop>(alloc: Global, input: R) -> Result<Vec<[i64; 2]>, Fault>
///     ensures { Unpacks (R.remaining input) result }
/// {
///     let bytes = read_all(alloc, input)?;
///     let tree = read_stored::<DefaultParams>(alloc, &bytes)?;
///     let mut points = points_of(alloc, tree)?;
///     points.sort_unstable();
///     Ok(points)
/// }
/// ```
/// *`crates/rstar_run/src/stored.rt`*
pub fn read_stored<Params: RTreeParams>(
    alloc: Global,
    bytes: &[u8],
) -> Result<RTree<[i64; 2], Params>, StoredError>
    ensures first { Gives (λ tree. shown_root (root_of tree)) result (tree_at bytes.now) }
    ensures spelled { IfOk result (λ tree. Spells bytes.now (shown_root (root_of tree))) }
    ensures one_tree { IfOk result (λ tree. (t : Tree) → Spells bytes.now t → t ≡ shown_root (root_of tree)) }
    ensures whole { IfOk result (IsWholeTree boxes places Params.MAX_SIZE) }
    ensures none { IfErr result (λ e. e ≢ NoMemory → (t : Tree) → Spells bytes.now t → ⊥) }
    ensures fault { IfErr result (HasFault bytes.now) }
    ensures one_fault { IfErr result (λ e. e ≢ NoMemory → IsOnlyFault bytes.now e) }
{
    tree_of(alloc, bytes)
}

/// Appends bytes, for which there is room.
fn put_bytes(out: &mut Vec<u8>, bytes: &[u8])
    requires room { vec_len out.old + length bytes.now ≤ vec_capacity out.old }
    ensures { Appends bytes.now (length bytes.now) out.old out.new }
{
    for &byte in bytes {
        out.push_reserved(byte);
    }
}

/// Appends a point, for which there is room.
fn put_point(out: &mut Vec<u8>, p: [i64; 2])
    requires room { vec_len out.old + 16 ≤ vec_capacity out.old }
    ensures put { Appends (point p) 16 out.old out.new }
    ensures place { IsPoint low high 2 p }
{
    // Does nothing but tell that the coordinates are in their range.
    known(&p);
    put_bytes(out, &p[0].to_le_bytes());
    put_bytes(out, &p[1].to_le_bytes());
}

/// Appends a parent, for which there is room.
fn put_parent(out: &mut Vec<u8>, parent: &ParentNode<[i64; 2]>)
    requires room { vec_len out.old + stored_size (shown_root parent.now) ≤ vec_capacity out.old }
    ensures put { Appends (spelling (shown_root parent.now)) (stored_size (shown_root parent.now)) out.old out.new }
    ensures stored { (h : ℕ) → IsParentTree (IsInner boxes places) (IsElement boxes places) h parent.now
        → IsStored (suc h) (shown_root parent.now) }
{
    put_bytes(out, &(parent.children.len() as u64).to_le_bytes());
    put_point(out, parent.envelope.lower());
    put_point(out, parent.envelope.upper());
    for child in parent.children.as_slice() {
        match child {
            RTreeNode::Leaf(p) => put_point(out, *p),
            RTreeNode::Parent(below) => put_parent(out, below),
        }
    }
}

/// The length of a parent in bytes, clamped to the greatest `usize`.
fn parent_size(parent: &ParentNode<[i64; 2]>) -> usize
    ensures { result ≡ min (stored_size (shown_root parent.now)) usize.MAX }
{
    let mut size: usize = 40;
    for node in parent.children.as_slice() {
        match node {
            RTreeNode::Leaf(_) => size = size.saturating_add(16),
            RTreeNode::Parent(below) => size = size.saturating_add(parent_size(below)),
        }
    }
    size
}

/// The bytes before the root, in a list with room for exactly `room` bytes.
fn headed(alloc: Global, room: usize, count: u64, height: u8) -> Result<Vec<u8>, AllocError>
    requires { 13 ≤ room }
    ensures spelled { IfOk result (λ out. out.items ≡ magic ++ number count ++ height ∷ []) }
    ensures len { IfOk result (λ out. vec_len out ≡ 13) }
    ensures room { IfOk result (λ out. vec_capacity out ≡ room) }
{
    let mut out = Vec::with_capacity(alloc, room)?;
    put_bytes(&mut out, b"RST1");
    put_bytes(&mut out, &count.to_le_bytes());
    out.push_reserved(height);
    Ok(out)
}

/// The bytes that spell the tree. `read_stored` reads the same tree from them.
///
/// It is refused with `TooHigh` for a tree of more than 64 levels of parents, and otherwise only with
/// `NoMemory`. Memory is taken once, for exactly the bytes written. The cost is one traversal of the nodes.
///
/// ```rust
/// fn packed<R: Read + Drop>(alloc: Global, input: R) -> Result<Vec<u8>, Fault>
///     ensures { Packs (R.remaining input) result }
/// {
///     let points = read_points(alloc, input)?;
///     let tree = RTree::<[i64; 2]>::bulk_load(points)?;
///     Ok(write_stored(&tree)?)
/// }
/// ```
/// *`crates/rstar_run/src/stored.rt`*
pub fn write_stored<Params: RTreeParams>(
    tree: &RTree<[i64; 2], Params>,
) -> Result<Vec<u8>, StoredError>
    requires { IsWholeTree boxes places Params.MAX_SIZE tree.now }
    ensures spelled { IfOk result (λ out. Spells out.items (shown_root (root_of tree.now))) }
    ensures one_spelling { IfOk result (λ out. (bytes : List ℕ) → Spells bytes (shown_root (root_of tree.now)) → bytes ≡ out.items) }
    ensures room { IfOk result (λ out. vec_capacity out ≡ length out.items) }
    ensures refused { IfErr result (λ e. (e ≡ NoMemory) ⊎ ((e ≡ TooHigh) × (64 < height_of (root_of tree.now)))) }
    ensures too_high { 64 < height_of (root_of tree.now) → result ≡ Err TooHigh }
{
    let root = tree.root();
    let levels = tree.levels();
    if levels > 63 {
        return Err(StoredError::TooHigh);
    }
    let alloc = *root.children.allocator();
    let count = tree.size() as u64;
    if root.children.is_empty() {
        let out = headed(alloc, 13, count, 0)?;
        return Ok(out);
    }
    let room = parent_size(root).saturating_add(13);
    let mut out = headed(alloc, room, count, levels as u8 + 1)?;
    put_parent(&mut out, root);
    Ok(out)
}
