//! An overlap finder: parts are laid down, and all pairs of parts that overlap are asked for.
//!
//! The join of the tree with itself gives each pair of pieces once. The finder drops the pairs of two pieces of
//! one part, which share its number.

ghost use Rattle.std.specs.Prelude.{◌≡◌, ◌==◌, ◌∷◌, ◌&&◌, [], false, map, filter, not, IfOk, IfErr, OnOk, OnErr};
ghost use Rattle.std.specs.List.Sorted.{IsPermutation};
ghost use Rattle.rstar.specs.Boxes.{is_empty_box};
ghost use Rattle.rstar.specs.SelfJoins.{pairs_behind};
ghost use Rattle.rstar.specs.Trees.{elements_in, IsWholeTree};
ghost use Rattle.rstar_uses.specs.Numbered.{box_of, overlaps};

use rstar::primitives::{GeomWithData, Rectangle};
use rstar::{AABB, DefaultParams, Envelope, InsertError, RTree, RTreeObject, RTreeParams};
use std::alloc::{AllocError, Global};
use std::marker::Model;

/// A rectangle with the number of the part that it is a piece of.
pub type Piece = GeomWithData<Rectangle<[i64; 2]>, u64>;

/// Two pieces.
type Pair<'a, T> = (&'a T, &'a T);

/// Pieces of parts, in a tree. Equal ones each count.
#[derive(Drop)]
pub struct Layout {
    tree: RTree<Piece>,
}

// Contracts see the list of the pieces, in no order that is told. The tree is whole.
impl Model for Layout {
    ghost use Rattle.std.specs.Prelude.{List};
    ghost use Rattle.rstar.specs.Trees.{elements_in, IsWholeTree};
    ghost use Rattle.rstar_uses.specs.Numbered.{Numbered};

    ghost Value = { List Numbered };

    ghost view = { λ s. elements_in s.tree };

    ghost invariant = { λ s. IsWholeTree ⟦<AABB<[i64; 2]> as Envelope>⟧.boxes ⟦<Piece as RTreeObject>⟧.object
        ⟦<DefaultParams as RTreeParams>⟧.MAX_SIZE s.tree };
}

impl Layout {
    /// No piece. It takes no memory.
    pub fn new(alloc: Global) -> Layout
        ensures { result ≡ [] }
    {
        Layout {
            tree: RTree::new(alloc),
        }
    }

    /// Adds a piece. A refusal hands it back and leaves the layout as it was.
    pub fn lay(&mut self, piece: Piece) -> Result<(), InsertError<Piece>>
        requires filled { is_empty_box (box_of piece) ≡ false }
        ensures laid { OnOk result (IsPermutation (piece ∷ self.old) self.new) }
        ensures handed_back { IfErr result (λ refused. refused.element ≡ piece) }
        ensures unchanged { OnErr result (self.new ≡ self.old) }
    {
        self.tree.insert(piece)
    }

    /// The pairs of pieces of two parts that overlap, each pair once, in some order. Touching is enough. Memory
    /// may be refused.
    pub fn overlaps(&self, alloc: Global) -> Result<Vec<(&Piece, &Piece)>, AllocError>
        ensures { IfOk result (λ pairs. IsPermutation (map (λ pair. (pair.0.now, pair.1.now)) pairs.items)
            (overlaps self.now)) }
    {
        met_of_two_parts(alloc, &self.tree)
    }
}

/// The pairs of elements of a tree that intersect and have two numbers.
fn met_of_two_parts<R: RTreeObject>(
    alloc: Global,
    tree: &RTree<GeomWithData<R, u64>>,
) -> Result<Vec<Pair<'_, GeomWithData<R, u64>>>, AllocError>
    requires { IsWholeTree R.Envelope.boxes ⟦<GeomWithData<R, u64> as RTreeObject>⟧.object
        ⟦<DefaultParams as RTreeParams>⟧.MAX_SIZE tree.now }
    ensures { IfOk result (λ pairs. IsPermutation (map (λ pair. (pair.0.now, pair.1.now)) pairs.items)
        (filter (λ pair. R.Envelope.boxes.intersects (R.object.box_of pair.0.0) (R.object.box_of pair.1.0)
        && not (pair.0.1 == pair.1.1)) (pairs_behind (elements_in tree.now)))) }
{
    let met = tree.intersecting_pairs()?;
    let mut pairs: Vec<Pair<'_, GeomWithData<R, u64>>> = met.collect(alloc)?;
    pairs.retain(|&(one, other)| one.data != other.data);
    Ok(pairs)
}

#[cfg(test)]
mod tests {
    use super::*;
    use crate::geofence::fence;

    /// A piece's number and two corners.
    type Row = (u64, [i64; 2], [i64; 2]);

    /// Whether pairs have these numbers, in some order.
    fn are(pairs: Result<Vec<(&Piece, &Piece)>, AllocError>, numbers: &[(u64, u64)]) -> bool {
        match &pairs {
            Ok(all) => {
                let mut is_so = all.len() == numbers.len();
                for (one, other) in all {
                    is_so &= numbers.contains(&(one.data, other.data))
                        || numbers.contains(&(other.data, one.data));
                }
                is_so
            }
            Err(_) => false,
        }
    }

    /// Whether these pieces overlap so.
    fn overlap(alloc: Global, list: &[Row], numbers: &[(u64, u64)]) -> bool {
        let mut layout = Layout::new(alloc);
        let mut is_so = true;
        for &(number, one, other) in list {
            is_so &= layout.lay(fence(number, one, other)).is_ok();
        }
        is_so & are(layout.overlaps(alloc), numbers)
    }

    // Parts that touch at a corner overlap, and each pair comes once, in whichever order its parts were laid; two pieces of one
    // part do not, and both overlap another.
    #[test]
    fn parts_that_overlap(rt: HostRuntime) {
        const DESK: Row = (1, [0, 0], [4, 2]);
        const SHELF: Row = (2, [4, 2], [6, 9]);
        const LAMP: Row = (3, [1, 1], [2, 2]);
        const ROWS: [(&'static [Row], &'static [(u64, u64)]); 4] = [
            (&[], &[]),
            (&[LAMP, SHELF], &[]),
            (&[LAMP, SHELF, DESK], &[(1, 3), (1, 2)]),
            (&[DESK, DESK, LAMP], &[(1, 3), (1, 3)]),
        ];
        for &(list, numbers) in &ROWS {
            assert!(rt; overlap(rt.alloc(), list, numbers));
        }
    }
}
