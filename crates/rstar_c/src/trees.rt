//! What is asked of any tree of elements with numbers, and what is taken out of it.

ghost use Rattle.std.specs.Prelude.{◌≡◌, filter, map, IfOk, IfNone, IfSome, OnErr};
ghost use Rattle.rstar.specs.Clones.{ClonesEqual};
ghost use Rattle.rstar.specs.Joins.{join};
ghost use Rattle.rstar.specs.SelfJoins.{self_join};
ghost use Rattle.rstar.specs.Steps.{selects, TakesSome};
ghost use Rattle.rstar.specs.Trees.{elements_in, IsWholeTree};
ghost use Rattle.rstar_c.specs.Answers.{ArePairsGiven};
ghost use Rattle.rstar_c.specs.Put.{ArePut};

use crate::put::put_pairs;
use crate::walk::put_lawful;
use rstar::algorithm::selection_functions::{
    SelectAllFunc, SelectAtPointFunction, SelectInEnvelopeFuncIntersecting,
    SelectInEnvelopeFunction, SelectWithinDistanceFunction,
};
use rstar::replay::{Command, Query, Reply, Scanned, step};
use rstar::{Envelope, EqualEnvelopes, PointDistance, RTree, RTreeObject, RTreeParams};
use rstar_base::primitives::GeomWithData;
use std::alloc::AllocError;

/// Writes the numbers of the elements that a query selects into a list, from a place on and as far as it reaches. It gives
/// the place behind the last, also where the list ends before. It takes no memory.
pub(crate) fn put_selected<R: PointDistance + EqualEnvelopes, Params: RTreeParams>(
    tree: &RTree<GeomWithData<R, u64>, Params>,
    query: Query<GeomWithData<R, u64>>,
    out: &mut [u64],
    from: usize,
) -> usize
    requires { IsWholeTree R.Envelope.boxes ⟦<GeomWithData<R, u64> as RTreeObject>⟧.object Params.MAX_SIZE tree.now }
    ensures { ArePut (map (λ t. t.1) (filter (selects ⟦<GeomWithData<R, u64> as Scanned>⟧.questions query)
        (elements_in tree.now))) from out.old out.new result }
{
    match query {
        Query::All => put_lawful(tree, &SelectAllFunc, out, from),
        Query::In(area) => put_lawful(tree, &SelectInEnvelopeFunction::new(area), out, from),
        Query::Hit(area) => {
            put_lawful(
                tree,
                &SelectInEnvelopeFuncIntersecting::new(area),
                out,
                from,
            )
        }
        Query::At(point) => put_lawful(tree, &SelectAtPointFunction::new(point), out, from),
        Query::Within(point, distance) => {
            let near = SelectWithinDistanceFunction::new(point, distance);
            put_lawful(tree, &near, out, from)
        }
    }
}

/// Writes the numbers of the pairs of elements that intersect into two lists: each pair of places once.
pub(crate) fn put_own_pairs<R: RTreeObject, Params: RTreeParams>(
    tree: &RTree<GeomWithData<R, u64>, Params>,
    first: &mut [u64],
    second: &mut [u64],
) -> Result<usize, AllocError>
    requires { IsWholeTree R.Envelope.boxes ⟦<GeomWithData<R, u64> as RTreeObject>⟧.object Params.MAX_SIZE tree.now }
    ensures given { IfOk result (λ found. ArePairsGiven (λ t. t.1) (self_join R.Envelope.boxes.intersects
        ⟦<GeomWithData<R, u64> as RTreeObject>⟧.object.box_of (elements_in tree.now))
        first.old first.new second.old second.new found) }
    ensures refused { OnErr result ((first.new ≡ first.old) × (second.new ≡ second.old)) }
{
    match tree.intersecting_pairs() {
        Ok(pairs) => Ok(put_pairs(pairs, first, second)),
        Err(refused) => Err(refused),
    }
}

/// The same of the pairs of an element of each of two trees.
pub(crate) fn put_pairs_between<R: RTreeObject, Params: RTreeParams>(
    tree: &RTree<GeomWithData<R, u64>, Params>,
    other: &RTree<GeomWithData<R, u64>, Params>,
    first: &mut [u64],
    second: &mut [u64],
) -> Result<usize, AllocError>
    requires this { IsWholeTree R.Envelope.boxes ⟦<GeomWithData<R, u64> as RTreeObject>⟧.object Params.MAX_SIZE tree.now }
    requires other { IsWholeTree R.Envelope.boxes ⟦<GeomWithData<R, u64> as RTreeObject>⟧.object Params.MAX_SIZE other.now }
    ensures given { IfOk result (λ found. ArePairsGiven (λ t. t.1) (join R.Envelope.boxes.intersects
        ⟦<GeomWithData<R, u64> as RTreeObject>⟧.object.box_of ⟦<GeomWithData<R, u64> as RTreeObject>⟧.object.box_of
        (elements_in tree.now) (elements_in other.now)) first.old first.new second.old second.new found) }
    ensures refused { OnErr result ((first.new ≡ first.old) × (second.new ≡ second.old)) }
{
    match tree.intersection_candidates_with_other_tree(other) {
        Ok(pairs) => Ok(put_pairs(pairs, first, second)),
        Err(refused) => Err(refused),
    }
}

/// Takes the elements out that a query selects, up to so many. `None` where memory is refused; all is as it was then.
pub(crate) fn drained<T: PointDistance + EqualEnvelopes + Clone, Params: RTreeParams>(
    tree: &mut RTree<T, Params>,
    query: Query<T>,
    most: usize,
) -> Option<Vec<T>>
    requires whole { IsWholeTree T.Envelope.boxes T.object Params.MAX_SIZE tree.old }
    requires clones { ClonesEqual T.is_clone }
    ensures taken { IfSome result (λ taken. TakesSome (selects ⟦<T as Scanned>⟧.questions query) most
        (elements_in tree.old) taken.items (elements_in tree.new)) }
    ensures refused { IfNone result (elements_in tree.new ≡ elements_in tree.old) }
    ensures whole { IsWholeTree T.Envelope.boxes T.object Params.MAX_SIZE tree.new }
{
    match step(tree, Command::Drain(query, most)) {
        Reply::Elements(taken) => Some(taken),
        _ => None,
    }
}
