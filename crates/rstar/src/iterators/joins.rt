//! Joins: the pairs of elements of two trees whose envelopes intersect, by one traversal of both trees.

ghost use Rattle.std.specs.Prelude.{◌≡◌, ◌≤◌, max, refl, IsOk, IfOk};
ghost use Rattle.std.specs.Iterator.{item_count};
ghost use Rattle.rstar.specs.Heights.{levels_below};
ghost use Rattle.rstar.specs.Nodes.{children_of, IsWhole};
ghost use Rattle.rstar.specs.Meets.{pairs_from_roots};
ghost use Rattle.rstar.specs.Joins.{SeenLaws, meets_by, pairs_opened, pairs_to_come, IsJoinMade, IsJoining, GivesPair};

mod selves;
mod walk;

use crate::bounds::{Covered, Meets};
pub use crate::iterators::joins::selves::SelfIntersectionIterator;
use crate::iterators::joins::walk::PairWalk;
use crate::node::ParentNode;
use rstar_base::{Envelope, RTreeObject};
use std::alloc::AllocError;

/// Element types with envelopes of type `E`. Every element type has it for its own envelope type alone. It
/// stands where rstar writes `RTreeObject<Envelope = E>`.
pub trait InEnvelope<E: Envelope>: RTreeObject {
    // The envelope, as one of that type.
    ghost seen: { Self.Envelope → E };

    /// The envelope as a value of type `E`.
    fn seen(envelope: &Self::Envelope) -> &E
        ensures { result.now ≡ seen envelope.now };

    ghost seen_laws: { SeenLaws Self.Envelope.boxes E.boxes seen };
}

impl<T: RTreeObject> InEnvelope<T::Envelope> for T {
    ghost seen = { λ e. e };

    fn seen(envelope: &T::Envelope) -> &T::Envelope {
        envelope
    }

    ghost seen_laws = { record {
      value = λ a h. h;
      merge = λ a b. refl;
    } };
}

/// The pairs of elements of two trees whose envelopes intersect, in some order. Each pair of places comes once.
///
/// The traversal visits a pair of nodes where their envelopes intersect, and goes on with the pairs of their children.
/// Where one of the two is a leaf, the other goes on alone. `next` takes no memory: the paths were reserved before.
#[derive(Drop)]
pub struct IntersectionIterator<'a, T: Covered, U: Meets<T> = T> {
    left: &'a ParentNode<T>,
    right: &'a ParentNode<U>,
    walk: PairWalk<'a, T, U>,
}

impl<'a, T: Covered, U: Meets<T>> IntersectionIterator<'a, T, U> {
    /// A join below two roots, of which the higher has this many levels of parents below it.
    #[tactic(auto, unfolding(crate::specs::Joins::pairs_to_come, crate::specs::Joins::IsJoining))]
    pub(crate) fn new(
        left: &'a ParentNode<T>,
        right: &'a ParentNode<U>,
        levels: usize,
    ) -> Result<Self, AllocError>
        requires left { IsWhole T.Cover.boxes T.object left.now }
        requires right { IsWhole U.Cover.boxes U.object right.now }
        requires levels { levels ≡ max (levels_below (children_of left.now)) (levels_below (children_of right.now)) }
        ensures gives { IfOk result (λ it.
            pairs_to_come (meets_by T.Cover.boxes U.seen) T.object.box_of U.object.box_of it
            ≡ pairs_from_roots (meets_by T.Cover.boxes U.seen) T.object.box_of U.object.box_of left.now right.now) }
        ensures made { IfOk result (λ it.
            IsJoinMade (meets_by T.Cover.boxes U.seen) T.object.box_of U.object.box_of left.now right.now it) }
        ensures joining { IfOk result (λ it.
            IsJoining (meets_by T.Cover.boxes U.seen) T.object.box_of U.object.box_of it) }
        ensures near { levels ≤ 12 → IsOk result }
    {
        let lefts = &left.children[..0];
        let rights = &right.children[..0];
        let mut walk = PairWalk::idle(*left.children.allocator(), lefts, rights, levels)?;
        let empty = left.children.is_empty() || right.children.is_empty();
        if empty || !U::meet(&left.envelope, &right.envelope) {
            return Ok(IntersectionIterator { left, right, walk });
        }
        walk.begin(left.children.as_slice(), right.children.as_slice());
        walk.opened = 1;
        Ok(IntersectionIterator { left, right, walk })
    }

    /// The number of pairs of nodes visited so far. The pair of roots counts; the number is clamped to the
    /// greatest `usize`.
    ///
    /// At the end it counts all pairs that intersect but those of two leaves. An empty root is never visited.
    pub fn opened(&self) -> usize
        ensures { result ≡ pairs_opened self.now }
    {
        self.walk.opened
    }
}

impl<'a, T: Covered, U: Meets<T>> Iterator for IntersectionIterator<'a, T, U> {
    type Item = (&'a T, &'a U);

    ghost can_next = { IsJoining (meets_by T.Cover.boxes U.seen) T.object.box_of U.object.box_of };

    ghost next_gives = { GivesPair (meets_by T.Cover.boxes U.seen) T.object.box_of U.object.box_of };

    ghost remaining = { item_count
        (pairs_to_come (meets_by T.Cover.boxes U.seen) T.object.box_of U.object.box_of) };

    #[tactic(auto, unfolding(crate::specs::Joins::pairs_to_come, crate::specs::Joins::IsJoining))]
    fn next(&mut self) -> Option<(&'a T, &'a U)> {
        self.walk.advance()
    }
}
