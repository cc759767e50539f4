//! Commands, run over a tree as a scan would run them over a list of its elements.

ghost use Rattle.std.specs.Prelude.{◌≡◌, ◌<◌, ◌↔◌, ◌⊎◌, List, None, IfOk, OnErr};
ghost use Rattle.std.specs.List.{AllByRecursion};
ghost use Rattle.rstar.specs.declared.replay.Reply.TheVariants.{Taken, TooMany};
ghost use Rattle.rstar.specs.Clones.{ClonesEqual};
ghost use Rattle.rstar.specs.Heights.{height_of, spare_lists};
ghost use Rattle.rstar.specs.Steps.{Questions, questions_of, IsFit, IsInsertion, IsQuestion, IsRefusal, Step, StepByOrder, Run, RunByOrder};
ghost use Rattle.rstar.specs.StepsOfTrees.{StepOfTree, RunOfTree};
ghost use Rattle.rstar.specs.Trees.{root_of, size_of, elements_in, IsUnchanged, IsWholeTree};

mod answers;
mod changes;
mod fits;
mod readings;

use crate::algorithm::nearest_neighbor::{AnyFirst, OwnOrder};
use crate::rtree::RTree;
use answers::{ask, join, nearest, neighbours};
use changes::{drain, insert, load};
pub use fits::{all_fit, is_fit};
use readings::Reading;
use rstar_base::{
    Distance, Envelope, EqualEnvelopes, Point, PointDistance, PointOf, RTreeNum, RTreeObject,
    RTreeParams,
};
use std::alloc::AllocError;

/// The element types of commands. Their elements have distances, and equal ones have equal envelopes. Every
/// such type has it.
pub trait Scanned: PointDistance + EqualEnvelopes {
    ghost questions: { Questions Self Self.Envelope Self.Envelope.Point Self.Envelope.Point.Scalar };
}

impl<T: PointDistance + EqualEnvelopes> Scanned for T {
    ghost questions = { questions_of T.Envelope.boxes T.object T.distances T.Envelope.Point.DIMENSIONS
        T.Envelope.Point.coord T.Envelope.Point.Scalar.value T.eq };
}

/// A query: which elements are selected.
#[derive(Drop)]
pub enum Query<T: PointDistance> {
    /// All elements.
    All,
    /// The elements whose envelopes an envelope contains.
    In(T::Envelope),
    /// The elements whose envelopes an envelope intersects.
    Hit(T::Envelope),
    /// The elements that contain a point.
    At(PointOf<T>),
    /// The elements within a squared distance of a point.
    Within(PointOf<T>, Distance<T>),
}

/// A command over a tree.
#[derive(Drop)]
pub enum Command<T: PointDistance> {
    /// Replaces the elements by these, which are loaded in bulk.
    Load(Vec<T>),
    /// Inserts an element.
    Insert(T),
    /// Removes one element that equals this one.
    Remove(T),
    /// Removes one element that contains a point.
    RemoveAtPoint(PointOf<T>),
    /// Removes one nearest element to a point.
    PopNearest(PointOf<T>),
    /// Removes up to this many elements of a query.
    Drain(Query<T>, usize),
    /// The elements of a query.
    Ask(Query<T>),
    /// Whether an element equals this one.
    Contains(T),
    /// A nearest element to a point, with its squared distance.
    Nearest(PointOf<T>),
    /// The k nearest elements to a point, with their squared distances.
    Neighbours(PointOf<T>, usize),
    /// The pairs of an element of the tree and one of this list whose envelopes intersect.
    Join(Vec<T>),
}

/// The reply to a command. Removed elements are moved into it, all others are clones. Distances are squared.
#[derive(Drop)]
pub enum Reply<T: PointDistance> {
    /// The command is done.
    Done,
    /// The removed element, if there was one.
    Taken(Option<T>),
    /// Elements, in some order.
    Elements(Vec<T>),
    /// Whether there is such an element.
    Has(bool),
    /// A nearest element with its squared distance; `None` where the tree is empty.
    Nearest(Option<(T, Distance<T>)>),
    /// Elements with their squared distances, the nearest first.
    Neighbours(Vec<(T, Distance<T>)>),
    /// Pairs of elements, in some order.
    Pairs(Vec<(T, T)>),
    /// The allocator refused memory; the tree is as it was.
    NoMemory,
    /// The tree cannot count one more element, and is as it was; `InsertCause::TooMany` says when.
    TooMany,
}

/// Runs one command, as a scan of the elements would (`Step`).
///
/// Commands are fit (`is_fit`), and a clone of an element equals it. A question, and a removal that finds
/// none, leave the very tree. `TooMany` comes from `Insert` alone, `NoMemory` from any command but `Remove`,
/// `RemoveAtPoint` and `Contains`. Both leave the tree as it was, and a refused `Insert` drops its element.
/// The cost is that of the tree's own call and of the clones in the reply.
#[tactic(auto, using(crate::proofs::commands::StepsByOrder::first_reading))]
pub fn step<T: PointDistance + EqualEnvelopes + Clone, Params: RTreeParams>(
    tree: &mut RTree<T, Params>,
    command: Command<T>,
) -> Reply<T>
    requires whole { IsWholeTree T.Envelope.boxes T.object Params.MAX_SIZE tree.old }
    requires clones { ClonesEqual T.is_clone }
    requires fit { IsFit ⟦<T as Scanned>⟧.questions T.Envelope.Point.DIMENSIONS command }
    ensures step { Step ⟦<T as Scanned>⟧.questions (elements_in tree.old) command result (elements_in tree.new) }
    ensures whole { IsWholeTree T.Envelope.boxes T.object Params.MAX_SIZE tree.new }
    ensures asked { IsQuestion command → tree.new ≡ tree.old }
    ensures missed { result ≡ Taken None → tree.new ≡ tree.old }
    ensures refused { IsRefusal result → IsUnchanged tree.old tree.new }
    ensures too_many { (result ≡ TooMany) ↔ (IsInsertion command × ((size_of tree.old ≡ usize.MAX)
        ⊎ (usize.MAX < spare_lists Params.REINSERTION_COUNT (height_of (root_of tree.old))))) }
{
    step_in::<T, AnyFirst, Params>(tree, command)
}

/// Runs commands in order by `step` (`Run`, `RunOfTree`).
///
/// An error means that the list of replies was refused, before any command was run.
pub fn replay<T: PointDistance + EqualEnvelopes + Clone, Params: RTreeParams>(
    tree: &mut RTree<T, Params>,
    commands: Vec<Command<T>>,
) -> Result<Vec<Reply<T>>, AllocError>
    requires whole { IsWholeTree T.Envelope.boxes T.object Params.MAX_SIZE tree.old }
    requires clones { ClonesEqual T.is_clone }
    requires fit { AllByRecursion (IsFit ⟦<T as Scanned>⟧.questions T.Envelope.Point.DIMENSIONS) commands.items }
    ensures run { IfOk result (λ replies. Run ⟦<T as Scanned>⟧.questions (elements_in tree.old) commands.items replies.items (elements_in tree.new)) }
    ensures steps { IfOk result (λ replies. RunOfTree T.Envelope.boxes T.object Params.MAX_SIZE Params.REINSERTION_COUNT
        (Step ⟦<T as Scanned>⟧.questions) tree.old commands.items replies.items tree.new) }
    ensures none_run { OnErr result (tree.new ≡ tree.old) }
    ensures whole { IsWholeTree T.Envelope.boxes T.object Params.MAX_SIZE tree.new }
{
    replay_in::<T, AnyFirst, Params>(tree, commands)
}

/// Runs one command as `step` does, with neighbours in the stated order (`StepByOrder`).
///
/// That order is by distance, and at equal distance by `Ord`. It fixes the replies of `PopNearest`,
/// `Nearest` and `Neighbours`, up to elements that compare equal. A reply by order is one that `step` may
/// give.
///
/// ```rust
/// pub fn step(&mut self, command: Command<Item>) -> Reply<Item>
///     requires { IsFit questions 2 command }
///     ensures { StoreStep self.old command result self.new }
/// {
///     step_by_order(&mut self.tree, command)
/// }
/// ```
/// *`crates/rstar_run/src/store.rt`*
#[tactic(auto, using(crate::proofs::commands::StepsByOrder::first_reading))]
pub fn step_by_order<T: PointDistance + EqualEnvelopes + Clone + Ord, Params: RTreeParams>(
    tree: &mut RTree<T, Params>,
    command: Command<T>,
) -> Reply<T>
    requires whole { IsWholeTree T.Envelope.boxes T.object Params.MAX_SIZE tree.old }
    requires clones { ClonesEqual T.is_clone }
    requires fit { IsFit ⟦<T as Scanned>⟧.questions T.Envelope.Point.DIMENSIONS command }
    ensures step { StepByOrder ⟦<T as Scanned>⟧.questions T.cmp (elements_in tree.old) command result
        (elements_in tree.new) }
    ensures first_reading { (old new : List T) (asked : _) (given : _)
        → StepByOrder {X = T.Envelope.Point.Scalar.FromStrRadixErr} ⟦<T as Scanned>⟧.questions T.cmp old asked given new
        → Step ⟦<T as Scanned>⟧.questions old asked given new }
    ensures whole { IsWholeTree T.Envelope.boxes T.object Params.MAX_SIZE tree.new }
    ensures asked { IsQuestion command → tree.new ≡ tree.old }
    ensures missed { result ≡ Taken None → tree.new ≡ tree.old }
    ensures refused { IsRefusal result → IsUnchanged tree.old tree.new }
    ensures too_many { (result ≡ TooMany) ↔ (IsInsertion command × ((size_of tree.old ≡ usize.MAX)
        ⊎ (usize.MAX < spare_lists Params.REINSERTION_COUNT (height_of (root_of tree.old))))) }
{
    step_in::<T, OwnOrder, Params>(tree, command)
}

/// Runs commands in order by `step_by_order` (`RunByOrder`, `RunOfTree`).
///
/// An error means that the list of replies was refused, before any command was run.
pub fn replay_by_order<T: PointDistance + EqualEnvelopes + Clone + Ord, Params: RTreeParams>(
    tree: &mut RTree<T, Params>,
    commands: Vec<Command<T>>,
) -> Result<Vec<Reply<T>>, AllocError>
    requires whole { IsWholeTree T.Envelope.boxes T.object Params.MAX_SIZE tree.old }
    requires clones { ClonesEqual T.is_clone }
    requires fit { AllByRecursion (IsFit ⟦<T as Scanned>⟧.questions T.Envelope.Point.DIMENSIONS) commands.items }
    ensures run { IfOk result (λ replies. RunByOrder ⟦<T as Scanned>⟧.questions T.cmp (elements_in tree.old)
        commands.items replies.items (elements_in tree.new)) }
    ensures first_reading { IfOk result (λ replies. Run ⟦<T as Scanned>⟧.questions (elements_in tree.old)
        commands.items replies.items (elements_in tree.new)) }
    ensures steps { IfOk result (λ replies. RunOfTree T.Envelope.boxes T.object Params.MAX_SIZE Params.REINSERTION_COUNT
        (StepByOrder ⟦<T as Scanned>⟧.questions T.cmp) tree.old commands.items replies.items tree.new) }
    ensures none_run { OnErr result (tree.new ≡ tree.old) }
    ensures whole { IsWholeTree T.Envelope.boxes T.object Params.MAX_SIZE tree.new }
{
    replay_in::<T, OwnOrder, Params>(tree, commands)
}

/// Runs one command, with neighbours in the order `O`.
fn step_in<T: PointDistance + EqualEnvelopes + Clone, O: Reading<T>, Params: RTreeParams>(
    tree: &mut RTree<T, Params>,
    command: Command<T>,
) -> Reply<T>
    requires whole { IsWholeTree T.Envelope.boxes T.object Params.MAX_SIZE tree.old }
    requires clones { ClonesEqual T.is_clone }
    requires fit { IsFit ⟦<T as Scanned>⟧.questions T.Envelope.Point.DIMENSIONS command }
    ensures { StepOfTree T.Envelope.boxes T.object Params.MAX_SIZE Params.REINSERTION_COUNT
        (StepByOrder ⟦<T as Scanned>⟧.questions O.order) tree.old command result tree.new }
{
    match command {
        Command::Load(list) => load(tree, list),
        Command::Insert(t) => insert(tree, t),
        Command::Remove(t) => Reply::Taken(tree.remove(&t)),
        Command::RemoveAtPoint(point) => Reply::Taken(tree.remove_at_point(point)),
        Command::PopNearest(point) => O::pop(tree, point),
        Command::Drain(query, most) => drain(tree, query, most),
        Command::Ask(query) => ask(tree, query),
        Command::Contains(t) => Reply::Has(tree.contains(&t)),
        Command::Nearest(point) => nearest::<T, O, Params>(tree, point),
        Command::Neighbours(point, most) => neighbours::<T, O, Params>(tree, point, most),
        Command::Join(list) => join(tree, list),
    }
}

/// Runs commands by `step_in`.
fn replay_in<T: PointDistance + EqualEnvelopes + Clone, O: Reading<T>, Params: RTreeParams>(
    tree: &mut RTree<T, Params>,
    commands: Vec<Command<T>>,
) -> Result<Vec<Reply<T>>, AllocError>
    requires whole { IsWholeTree T.Envelope.boxes T.object Params.MAX_SIZE tree.old }
    requires clones { ClonesEqual T.is_clone }
    requires fit { AllByRecursion (IsFit ⟦<T as Scanned>⟧.questions T.Envelope.Point.DIMENSIONS) commands.items }
    ensures steps { IfOk result (λ replies. RunOfTree T.Envelope.boxes T.object Params.MAX_SIZE Params.REINSERTION_COUNT
        (StepByOrder ⟦<T as Scanned>⟧.questions O.order) tree.old commands.items replies.items tree.new) }
    ensures none_run { OnErr result (tree.new ≡ tree.old) }
    ensures whole { IsWholeTree T.Envelope.boxes T.object Params.MAX_SIZE tree.new }
{
    let mut replies = Vec::with_capacity(*commands.allocator(), commands.len())?;
    for command in commands {
        replies.push_reserved(step_in::<T, O, Params>(tree, command));
    }
    Ok(replies)
}
