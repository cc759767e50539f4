//! Commands that change the tree.

ghost use Rattle.std.specs.Prelude.{◌≡◌, ◌<◌, ◌≤◌, ◌↔◌, ◌⊎◌, false, IfOk, OnErr};
ghost use Rattle.rstar_base.specs.Selections.{IsLawful};
ghost use Rattle.rstar.specs.declared.replay.Command.TheVariants.{Load, Insert, Drain};
ghost use Rattle.rstar.specs.declared.replay.Reply.TheVariants.{TooMany};
ghost use Rattle.rstar.specs.Heights.{height_of, spare_lists};
ghost use Rattle.rstar.specs.Lists.{NoneEmpty};
ghost use Rattle.rstar.specs.Steps.{selects, IsRefusal, TakesSome, Step};
ghost use Rattle.rstar.specs.Trees.{root_of, size_of, elements_in, IsUnchanged, IsWholeTree};

use crate::params::InsertCause;
use crate::replay::{Query, Reply, Scanned};
use crate::rtree::RTree;
use rstar_base::algorithm::selection_functions::{
    SelectAllFunc, SelectAtPointFunction, SelectInEnvelopeFuncIntersecting,
    SelectInEnvelopeFunction, SelectWithinDistanceFunction,
};
use rstar_base::{
    Envelope, EqualEnvelopes, Point, PointDistance, RTreeNum, RTreeObject, RTreeParams,
    SelectionFunction,
};
use std::alloc::AllocError;

/// Replaces the tree by a bulk load.
#[tactic(auto, using(crate::proofs::commands::Replays::same_bag))]
pub(super) fn load<T: PointDistance + EqualEnvelopes, Params: RTreeParams>(
    tree: &mut RTree<T, Params>,
    list: Vec<T>,
) -> Reply<T>
    requires whole { IsWholeTree T.Envelope.boxes T.object Params.MAX_SIZE tree.old }
    requires dimensions { 2 ≤ T.Envelope.Point.DIMENSIONS }
    requires elements { NoneEmpty T.Envelope.boxes.is_empty T.object.box_of list.items }
    ensures step { Step ⟦<T as Scanned>⟧.questions (elements_in tree.old) (Load list) result (elements_in tree.new) }
    ensures whole { IsWholeTree T.Envelope.boxes T.object Params.MAX_SIZE tree.new }
    ensures refused { IsRefusal result → tree.new ≡ tree.old }
{
    match RTree::bulk_load_with_params(list) {
        Ok(fresh) => {
            *tree = fresh;
            Reply::Done
        }
        Err(_) => Reply::NoMemory,
    }
}

/// Inserts an element, and drops it where it is refused.
#[tactic(auto, using(crate::proofs::commands::Replays::same_bag))]
pub(super) fn insert<T: PointDistance + EqualEnvelopes, Params: RTreeParams>(
    tree: &mut RTree<T, Params>,
    t: T,
) -> Reply<T>
    requires whole { IsWholeTree T.Envelope.boxes T.object Params.MAX_SIZE tree.old }
    requires element { T.Envelope.boxes.is_empty (T.object.box_of t) ≡ false }
    ensures step { Step ⟦<T as Scanned>⟧.questions (elements_in tree.old) (Insert t) result (elements_in tree.new) }
    ensures whole { IsWholeTree T.Envelope.boxes T.object Params.MAX_SIZE tree.new }
    ensures refused { IsRefusal result → IsUnchanged tree.old tree.new }
    ensures too_many { (result ≡ TooMany) ↔ ((size_of tree.old ≡ usize.MAX)
        ⊎ (usize.MAX < spare_lists Params.REINSERTION_COUNT (height_of (root_of tree.old)))) }
{
    match tree.insert(t) {
        Ok(()) => Reply::Done,
        Err(refused) => match refused.cause {
            InsertCause::NoMemory => Reply::NoMemory,
            InsertCause::TooMany => Reply::TooMany,
        },
    }
}

/// Removes up to this many elements of a query.
#[tactic(auto, using(crate::proofs::commands::Replays::same_bag))]
pub(super) fn drain<T: PointDistance + EqualEnvelopes, Params: RTreeParams>(
    tree: &mut RTree<T, Params>,
    query: Query<T>,
    most: usize,
) -> Reply<T>
    requires whole { IsWholeTree T.Envelope.boxes T.object Params.MAX_SIZE tree.old }
    ensures step { Step ⟦<T as Scanned>⟧.questions (elements_in tree.old) (Drain query most) result (elements_in tree.new) }
    ensures whole { IsWholeTree T.Envelope.boxes T.object Params.MAX_SIZE tree.new }
    ensures refused { IsRefusal result → tree.new ≡ tree.old }
{
    match drain_query(tree, query, most) {
        Ok(taken) => Reply::Elements(taken),
        Err(_) => Reply::NoMemory,
    }
}

/// The same, as a list.
fn drain_query<T: PointDistance + EqualEnvelopes, Params: RTreeParams>(
    tree: &mut RTree<T, Params>,
    query: Query<T>,
    most: usize,
) -> Result<Vec<T>, AllocError>
    requires whole { IsWholeTree T.Envelope.boxes T.object Params.MAX_SIZE tree.old }
    ensures taken { IfOk result (λ taken. TakesSome (selects ⟦<T as Scanned>⟧.questions query) most
        (elements_in tree.old) taken.items (elements_in tree.new)) }
    ensures refused { OnErr result (tree.new ≡ tree.old) }
    ensures whole { IsWholeTree T.Envelope.boxes T.object Params.MAX_SIZE tree.new }
{
    match query {
        Query::All => drain_some(tree, SelectAllFunc, most),
        Query::In(envelope) => drain_some(tree, SelectInEnvelopeFunction::new(envelope), most),
        Query::Hit(envelope) => {
            drain_some(tree, SelectInEnvelopeFuncIntersecting::new(envelope), most)
        }
        Query::At(point) => drain_some(tree, SelectAtPointFunction::new(point), most),
        Query::Within(point, limit) => {
            drain_some(tree, SelectWithinDistanceFunction::new(point, limit), most)
        }
    }
}

/// Removes up to this many elements that a function selects. The list is reserved before the first removal.
fn drain_some<T: RTreeObject, R: SelectionFunction<T>, Params: RTreeParams>(
    tree: &mut RTree<T, Params>,
    func: R,
    most: usize,
) -> Result<Vec<T>, AllocError>
    requires whole { IsWholeTree T.Envelope.boxes T.object Params.MAX_SIZE tree.old }
    requires lawful { IsLawful T.Envelope.boxes T.object (R.accepts func) (R.selects func) }
    ensures taken { IfOk result (λ taken. TakesSome (R.selects func) most (elements_in tree.old) taken.items
        (elements_in tree.new)) }
    ensures refused { OnErr result (tree.new ≡ tree.old) }
    ensures whole { IsWholeTree T.Envelope.boxes T.object Params.MAX_SIZE tree.new }
{
    let room = most.min(tree.size());
    let mut taken = Vec::with_capacity(*tree.root().children.allocator(), room)?;
    tree.gather(&func, room, &mut taken);
    taken.shrink_to_fit();
    Ok(taken)
}
