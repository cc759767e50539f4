//! A layout checker: the parts on a board that stand nearer to a rectangle than a limit.

ghost use Rattle.std.specs.Prelude.{◌≡◌, ◌∷◌, [], false, map, filter, pos, int_le, IfOk, IfErr, OnOk, OnErr};
ghost use Rattle.std.specs.List.Sorted.{IsPermutation};
ghost use Rattle.rstar.specs.Boxes.{is_empty_box};
ghost use Rattle.rstar.specs.Trees.{elements_in, IsWholeTree};
ghost use Rattle.rstar_uses.specs.Numbered.{box_of, is_nearer};

use rstar::object::Distance;
use rstar::primitives::{GeomWithData, Rectangle};
use rstar::{
    AABB, DefaultParams, Envelope, EnvelopeDistance, InsertError, Point, RTree, RTreeNum,
    RTreeObject, RTreeParams,
};
use std::alloc::{AllocError, Global};
use std::marker::Model;

/// The rectangle of a part, and its number.
pub type Part = GeomWithData<Rectangle<[i64; 2]>, u64>;

/// The parts on a board, in a tree. Equal ones each count.
#[derive(Drop)]
pub struct Board {
    parts: RTree<Part>,
}

// Contracts see the list of the parts, in no order that is told. The tree is whole.
impl Model for Board {
    ghost use Rattle.std.specs.Prelude.{List};
    ghost use Rattle.rstar.specs.Trees.{elements_in, IsWholeTree};
    ghost use Rattle.rstar_uses.specs.Numbered.{Numbered};

    ghost Value = { List Numbered };

    ghost view = { λ s. elements_in s.parts };

    ghost invariant = { λ s. IsWholeTree ⟦<AABB<[i64; 2]> as Envelope>⟧.boxes ⟦<Part as RTreeObject>⟧.object
        ⟦<DefaultParams as RTreeParams>⟧.MAX_SIZE s.parts };
}

impl Board {
    /// No part. It takes no memory.
    pub fn new(alloc: Global) -> Board
        ensures { result ≡ [] }
    {
        Board {
            parts: RTree::new(alloc),
        }
    }

    /// Adds a part. Parts may overlap. A refusal hands it back and leaves the board as it was.
    pub fn add(&mut self, part: Part) -> Result<(), InsertError<Part>>
        requires filled { is_empty_box (box_of part) ≡ false }
        ensures added { OnOk result (IsPermutation (part ∷ self.old) self.new) }
        ensures handed_back { IfErr result (λ refused. refused.element ≡ part) }
        ensures unchanged { OnErr result (self.new ≡ self.old) }
    {
        self.parts.insert(part)
    }

    /// The parts nearer to a box than a limit, in some order. Distances are squared, and a part that touches the
    /// box is at 0. Memory may be refused.
    pub fn nearer_than(
        &self,
        alloc: Global,
        area: AABB<[i64; 2]>,
        limit: i64,
    ) -> Result<Vec<&Part>, AllocError>
        ensures { IfOk result (λ found. map (λ part. part.now) found.items ≡ filter (is_nearer limit area) self.now) }
    {
        within(alloc, &self.parts, area, limit.saturating_sub(1))
    }
}

/// The elements of a tree at most a squared distance away from an envelope.
fn within<'a, T: RTreeObject>(
    alloc: Global,
    tree: &'a RTree<T>,
    area: T::Envelope,
    limit: Distance<T>,
) -> Result<Vec<&'a T>, AllocError>
where
    T::Envelope: EnvelopeDistance,
    requires { IsWholeTree T.Envelope.boxes T.object ⟦<DefaultParams as RTreeParams>⟧.MAX_SIZE tree.now }
    ensures { IfOk result (λ found. map (λ t. t.now) found.items ≡ filter
        (λ t. int_le (pos (T.Envelope.apart area (T.object.box_of t))) (T.Envelope.Point.Scalar.value limit))
        (elements_in tree.now)) }
{
    match tree.locate_within_distance_of_envelope(area, limit) {
        Ok(walk) => walk.collect(alloc),
        Err(refused) => Err(refused),
    }
}

#[cfg(test)]
mod tests {
    use super::*;
    use crate::geofence::{fence, have_numbers};

    /// A part's number and two corners.
    type Row = (u64, [i64; 2], [i64; 2]);

    /// The corners of a rectangle, a squared limit, and the numbers of the parts that are nearer.
    type Question = ([i64; 2], [i64; 2], i64, &'static [u64]);

    /// Whether the parts with these numbers are nearer to these rectangles.
    fn are_nearer(alloc: Global, parts: &[Row], questions: &[Question]) -> bool {
        let mut board = Board::new(alloc);
        let mut is_so = true;
        for &(number, one, other) in parts {
            is_so &= board.add(fence(number, one, other)).is_ok();
        }
        for &(one, other, limit, numbers) in questions {
            let found = board.nearer_than(alloc, AABB::from_corners(one, other), limit);
            is_so &= have_numbers(found, numbers);
        }
        is_so
    }

    // A gap of 1 along both axes is at a squared distance of 2, and a part that touches at 0. No part is nearer than
    // 0; from one end of the numbers to the other no distance is too great to be told.
    #[test]
    fn parts_nearer_than_a_limit(rt: HostRuntime) {
        const PARTS: [Row; 3] = [
            (7, [0, 0], [2, 2]),
            (8, [5, 5], [9, 9]),
            (9, [9, 10], [5, 5]),
        ];
        const QUESTIONS: [Question; 7] = [
            ([3, 3], [4, 4], 2, &[]),
            ([4, 4], [3, 3], 3, &[7, 8, 9]),
            ([4, 2], [3, 0], 2, &[7]),
            ([3, 0], [4, 2], 10, &[7]),
            ([3, 0], [4, 2], 11, &[7, 8, 9]),
            ([2, 2], [2, 2], 0, &[]),
            ([2, 2], [5, 5], 1, &[7, 8, 9]),
        ];
        assert!(rt; are_nearer(rt.alloc(), &PARTS, &QUESTIONS));
    }
}
