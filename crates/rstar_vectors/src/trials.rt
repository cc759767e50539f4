//! What is done to a tree beside a list of elements, step by step: rows that every subject shares.
//!
//! Steps name elements by their places in the list, so that what walks a row knows no type of a tree, and costs the check
//! a fourth of what it would over elements (CONTRIBUTING.md, "Ten rules").

ghost use Rattle.std.specs.Prelude.{◌<◌, ◌≤◌};
ghost use Rattle.rstar.specs.Trees.{IsWholeTree};

use crate::payloads::Asked;
use crate::reinsertion::all_go_in;
use crate::removal::{drain_some, leaves};
use crate::scenarios::{loaded, stands, stands_with};
use rstar::object::PointOf;
use rstar::{Envelope, EqualEnvelopes, PointDistance, RTree, RTreeObject, RTreeParams};
use std::alloc::Global;

/// Up to the end of the list, or as many as there are.
pub(crate) const ALL: usize = usize::MAX;

/// In which order elements leave: as they lie in the list, from the last one on, or here and there.
#[derive(Clone, Copy)]
pub(crate) enum Order {
    Forward,
    Backward,
    Mixed,
}

/// How elements leave: by `==`, each then gone; so at their places; or by `==` where all are equal, the last then gone.
#[derive(Clone, Copy)]
pub(crate) enum By {
    Equality,
    Place,
    Likeness,
}

/// Which elements a drain takes: all, those that lie in the envelope asked for, that it touches, or that are near the point,
/// or all by a function.
#[derive(Clone, Copy)]
pub(crate) enum Drained {
    All,
    Inside,
    Touched,
    Near,
    Chosen,
}

/// What an element of the list can be: in the tree, there and touched by the envelope asked for, given by a drain, or
/// either there or given, and not both.
#[derive(Clone, Copy)]
pub(crate) enum State {
    There,
    Touched,
    Given,
    Either,
}

/// One step. A range of elements ends before its second place, or with the list.
#[derive(Clone, Copy)]
pub(crate) enum Step {
    /// A range goes in, one after another.
    In(usize, usize),
    /// A range goes in, one after another; each parent then has at least and at most so many children.
    InSized(usize, usize, usize, usize),
    /// A range leaves, one after another.
    Out(usize, usize, Order, By),
    /// So many leave, one after another, each for the one that lies as many places on.
    GiveWay(usize, By),
    /// A drain of at most so many gives so many.
    Drain(Drained, usize, usize),
    /// All that the envelope touches is drained in two parts, the first of at most so many; and how many these are, where that
    /// is told.
    Parts(usize, Option<usize>),
    /// The tree has so many elements.
    Left(usize),
    /// So many of a range are such.
    Are(State, usize, usize, usize),
}

/// A tree beside a list of elements that are named by their places. After each change the tree stands, with one element
/// more or less, or as many less as a drain gave.
pub(crate) trait Trial {
    // What a call asks of the tree, and leaves.
    ghost is_whole: { Self → Type 0 };

    /// How many elements the list has.
    fn count(&self) -> usize;

    /// How many elements the tree has.
    fn size(&self) -> usize;

    /// Whether an element is such; none past the end of the list is.
    fn is_such(&self, state: State, k: usize) -> bool
        requires { is_whole self.now };

    /// Whether a range goes in, one after another, where each parent then has at least and at most so many children.
    fn go_in(&mut self, from: usize, to: usize, least: usize, most: usize) -> bool
        requires { is_whole self.old }
        ensures { is_whole self.new };

    /// Whether an element is there and leaves, by `==` or at its place; where it is the last of its kind, it is then gone.
    fn leaves(&mut self, k: usize, is_at_place: bool, is_last: bool) -> bool
        requires { is_whole self.old }
        ensures { is_whole self.new };

    /// How many elements a drain of at most so many gives; none where it is refused.
    fn drain(&mut self, which: Drained, most: usize) -> Option<usize>
        requires { is_whole self.old }
        ensures { is_whole self.new };
}

/// The place that comes `k`-th in an order of `count` places.
fn place(order: Order, k: usize, count: usize) -> usize
    requires { k < count }
    ensures { result < count }
{
    match order {
        Order::Forward => k,
        Order::Backward => count - 1 - k,
        Order::Mixed => k.wrapping_mul(307) % count,
    }
}

/// Whether a range of elements leaves, one after another.
fn all_leave<S: Trial>(trial: &mut S, from: usize, to: usize, order: Order, by: By) -> bool
    requires { S.is_whole trial.old }
    ensures { S.is_whole trial.new }
{
    let count = to.min(trial.count()).saturating_sub(from);
    for k in 0..count {
        let (is_at_place, is_last) = match by {
            By::Equality => (false, true),
            By::Place => (true, true),
            By::Likeness => (false, k + 1 == count),
        };
        let one = from.saturating_add(place(order, k, count));
        if !trial.leaves(one, is_at_place, is_last) {
            return false;
        }
    }
    true
}

/// Whether so many elements leave, one after another, each for the one that lies as many places on.
fn all_give_way<S: Trial>(trial: &mut S, count: usize, is_at_place: bool) -> bool
    requires { S.is_whole trial.old }
    ensures { S.is_whole trial.new }
{
    for k in 0..count {
        let other = k.saturating_add(count);
        if !trial.leaves(k, is_at_place, true)
            || !trial.go_in(other, other.saturating_add(1), 1, ALL)
        {
            return false;
        }
    }
    true
}

/// How many elements of a range are such.
fn count_of<S: Trial>(trial: &S, state: State, from: usize, to: usize) -> usize
    requires { S.is_whole trial.now }
{
    let mut count = 0usize;
    for k in from..to.min(trial.count()) {
        count = count.saturating_add(usize::from(trial.is_such(state, k)));
    }
    count
}

/// Whether all that the envelope touches is drained in two parts, the first of at most so many, and nothing of it is left;
/// and these are as many as told.
fn all_come_in_parts<S: Trial>(trial: &mut S, part: usize, told: Option<usize>) -> bool
    requires { S.is_whole trial.old }
    ensures { S.is_whole trial.new }
{
    let asked = count_of(&*trial, State::Touched, 0, ALL);
    let rest = asked.saturating_sub(part);
    told.unwrap_or(asked) == asked
        && trial.drain(Drained::Touched, part) == Some(part.min(asked))
        && count_of(&*trial, State::Touched, 0, ALL) == rest
        && trial.drain(Drained::Touched, ALL) == Some(rest)
        && count_of(&*trial, State::Touched, 0, ALL) == 0
}

/// Whether a step is taken as told.
fn takes<S: Trial>(trial: &mut S, step: &Step) -> bool
    requires { S.is_whole trial.old }
    ensures { S.is_whole trial.new }
{
    match *step {
        Step::In(from, to) => trial.go_in(from, to, 1, ALL),
        Step::InSized(from, to, least, most) => trial.go_in(from, to, least, most),
        Step::Out(from, to, order, by) => all_leave(trial, from, to, order, by),
        Step::GiveWay(count, by) => all_give_way(trial, count, matches!(by, By::Place)),
        Step::Drain(which, most, came) => trial.drain(which, most) == Some(came),
        Step::Parts(part, told) => all_come_in_parts(trial, part, told),
        Step::Left(count) => trial.size() == count,
        Step::Are(state, from, to, count) => count_of(&*trial, state, from, to) == count,
    }
}

/// Takes the steps of a row. An error is the first one that is not taken as told, by its number from 1 on.
fn take_all<S: Trial>(trial: &mut S, steps: &[Step]) -> Result<(), usize>
    requires { S.is_whole trial.old }
{
    for k in 0..steps.len() {
        if !takes(trial, &steps[k]) {
            return Err(k + 1);
        }
    }
    Ok(())
}

/// A tree, the list beside it, what drains gave, and the question of those that ask for one.
#[derive(Drop)]
struct Bench<'a, T: PointDistance, Params: RTreeParams> {
    tree: RTree<T, Params>,
    elements: &'a [T],
    given: Vec<T>,
    asked: &'a Asked<T>,
}

impl<'a, T: EqualEnvelopes + PointDistance + Copy, Params: RTreeParams> Trial
    for Bench<'a, T, Params>
where
    PointOf<T>: Copy,
{
    ghost is_whole = { λ b. IsWholeTree T.Envelope.boxes T.object Params.MAX_SIZE b.tree };

    fn count(&self) -> usize {
        self.elements.len()
    }

    fn size(&self) -> usize {
        self.tree.size()
    }

    fn is_such(&self, state: State, k: usize) -> bool {
        match self.elements.get(k) {
            Some(element) => {
                let is_there = self.tree.contains(element);
                match state {
                    State::There => is_there,
                    State::Touched => is_there && self.asked.0.intersects(&element.envelope()),
                    State::Given => (&*self.given).contains(element),
                    State::Either => (&*self.given).contains(element) != is_there,
                }
            }
            None => false,
        }
    }

    fn go_in(&mut self, from: usize, to: usize, least: usize, most: usize) -> bool {
        let (before, _) = self.elements.split_at(to.min(self.elements.len()));
        let (_, range) = before.split_at(from.min(before.len()));
        all_go_in(&mut self.tree, range, least, most)
    }

    fn leaves(&mut self, k: usize, is_at_place: bool, is_last: bool) -> bool {
        match self.elements.get(k) {
            Some(element) => leaves(&mut self.tree, element, is_at_place, is_last),
            None => false,
        }
    }

    fn drain(&mut self, which: Drained, most: usize) -> Option<usize> {
        let left = self.tree.size();
        let came = drain_some(&mut self.tree, which, self.asked, most, &mut self.given);
        if stands(&self.tree) && self.tree.size().saturating_add(came.unwrap_or(0)) == left {
            came
        } else {
            None
        }
    }
}

/// Takes the steps of a row with a tree, beside a list of elements, and with an envelope, a point and a squared distance
/// that are asked for. An error is the first step that is not taken as told, by its number from 1 on.
pub(crate) fn go_on<T: EqualEnvelopes + PointDistance + Copy, Params: RTreeParams>(
    alloc: Global,
    tree: RTree<T, Params>,
    elements: &[T],
    asked: &Asked<T>,
    steps: &[Step],
) -> Result<(), usize>
where
    PointOf<T>: Copy,
    requires { IsWholeTree T.Envelope.boxes T.object Params.MAX_SIZE tree }
{
    let mut bench = Bench {
        tree,
        elements,
        given: Vec::new(alloc),
        asked,
    };
    take_all(&mut bench, steps)
}

/// The same of a load of the first so many of the elements; 0 where that does not stand.
pub(crate) fn go_through<T: EqualEnvelopes + PointDistance + Copy, Params: RTreeParams>(
    alloc: Global,
    elements: &[T],
    loaded_first: usize,
    asked: &Asked<T>,
    steps: &[Step],
) -> Result<(), usize>
where
    PointOf<T>: Copy,
    requires { 2 ≤ T.Envelope.Point.DIMENSIONS }
{
    let count = loaded_first.min(elements.len());
    let tree = loaded::<T, Params>(alloc, elements.split_at(count).0);
    let is_so = stands_with(&tree, count);
    let gone = go_on(alloc, tree, elements, asked, steps);
    if is_so { gone } else { Err(0) }
}
