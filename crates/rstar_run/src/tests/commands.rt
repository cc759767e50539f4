//! Commands over points: a caller with all that a step promises, rows, and thousands of commands beside a plain list.

ghost use Rattle.std.specs.Prelude.{◌≡◌, ◌<◌, ◌↔◌, ◌⊎◌, IfOk, OnErr};
ghost use Rattle.std.specs.List.{AllByRecursion};
ghost use Rattle.rstar.specs.declared.replay.Reply.TheVariants.{TooMany};
ghost use Rattle.rstar.specs.Clones.{ClonesEqual};
ghost use Rattle.rstar.specs.Heights.{height_of, spare_lists};
ghost use Rattle.rstar.specs.Steps.{IsFit, IsInsertion, IsRefusal, Step, Run};
ghost use Rattle.rstar.specs.Trees.{root_of, size_of, elements_in, IsUnchanged, IsWholeTree};

use super::format::scan;
use super::mark;
use rstar::primitives::Rectangle;
use rstar::replay::{
    Command, Query, Reply, Scanned, all_fit, is_fit, replay, replay_by_order, step,
};
use rstar::stored::write_stored;
use rstar::{
    AABB, DefaultParams, Envelope, EqualEnvelopes, Point, PointDistance, RTree, RTreeObject,
    RTreeParams,
};
use std::alloc::{AllocError, Global};

type At = [i64; 2];

/// Runs one command over points.
fn step_points(tree: &mut RTree<At>, command: Command<At>) -> Reply<At>
    requires whole { IsWholeTree ⟦<AABB<[i64; 2]> as Envelope>⟧.boxes ⟦<[i64; 2] as RTreeObject>⟧.object
        ⟦<DefaultParams as RTreeParams>⟧.MAX_SIZE tree.old }
    requires fit { IsFit ⟦<[i64; 2] as Scanned>⟧.questions 2 command }
    ensures step { Step ⟦<[i64; 2] as Scanned>⟧.questions (elements_in tree.old) command result (elements_in tree.new) }
    ensures whole { IsWholeTree ⟦<AABB<[i64; 2]> as Envelope>⟧.boxes ⟦<[i64; 2] as RTreeObject>⟧.object
        ⟦<DefaultParams as RTreeParams>⟧.MAX_SIZE tree.new }
    ensures refused { IsRefusal result → IsUnchanged tree.old tree.new }
    ensures too_many { (result ≡ TooMany) ↔ (IsInsertion command × ((size_of tree.old ≡ usize.MAX)
        ⊎ (usize.MAX < spare_lists ⟦<DefaultParams as RTreeParams>⟧.REINSERTION_COUNT
        (height_of (root_of tree.old))))) }
{
    step(tree, command)
}

/// The replies to commands that are run at once, between two marks; none where one is not fit.
fn replied<T: PointDistance + EqualEnvelopes + Clone + Ord>(
    alloc: Global,
    tree: &mut RTree<T>,
    commands: Vec<Command<T>>,
    by_order: bool,
) -> Result<Vec<Reply<T>>, AllocError>
    requires whole { IsWholeTree T.Envelope.boxes T.object ⟦<DefaultParams as RTreeParams>⟧.MAX_SIZE tree.old }
    requires exact { ClonesEqual T.is_clone }
    ensures { IsWholeTree T.Envelope.boxes T.object ⟦<DefaultParams as RTreeParams>⟧.MAX_SIZE tree.new }
{
    if !all_fit(&commands) {
        return Ok(Vec::new(alloc));
    }
    mark(alloc);
    let all = replayed(tree, commands, by_order);
    mark(alloc);
    all
}

/// Runs commands, in the stated order of neighbours or in any.
fn replayed<T: PointDistance + EqualEnvelopes + Clone + Ord>(
    tree: &mut RTree<T>,
    commands: Vec<Command<T>>,
    by_order: bool,
) -> Result<Vec<Reply<T>>, AllocError>
    requires whole { IsWholeTree T.Envelope.boxes T.object ⟦<DefaultParams as RTreeParams>⟧.MAX_SIZE tree.old }
    requires exact { ClonesEqual T.is_clone }
    requires fit { AllByRecursion (IsFit ⟦<T as Scanned>⟧.questions T.Envelope.Point.DIMENSIONS) commands.items }
    ensures run { IfOk result (λ replies. Run ⟦<T as Scanned>⟧.questions
        (elements_in tree.old) commands.items replies.items (elements_in tree.new)) }
    ensures none_run { OnErr result (tree.new ≡ tree.old) }
    ensures whole { IsWholeTree T.Envelope.boxes T.object ⟦<DefaultParams as RTreeParams>⟧.MAX_SIZE tree.new }
{
    if by_order {
        replay_by_order(tree, commands)
    } else {
        replay(tree, commands)
    }
}

/// The replies to commands that run on an empty tree, and how many points the tree then has; none are counted where a scan of
/// what it is written as finds a fault.
fn replies(
    alloc: Global,
    commands: Vec<Command<At>>,
    by_order: bool,
) -> (Result<Vec<Reply<At>>, AllocError>, Option<usize>) {
    let mut tree: RTree<At> = RTree::default(alloc);
    let all = replied(alloc, &mut tree, commands, by_order);
    let left = match &write_stored(&tree) {
        Ok(bytes) if scan(alloc, bytes, &mut Vec::new(alloc)).is_ok() => Some(tree.size()),
        _ => None,
    };
    (all, left)
}

// ---- a plain list

/// What a command does.
#[derive(Clone, Copy, PartialEq)]
enum Kind {
    Load,
    /// Loads the first points of a line.
    LoadLine,
    Insert,
    Remove,
    RemoveAtPoint,
    PopNearest,
    Drain,
    Ask,
    Contains,
    Nearest,
    Neighbours,
    Join,
}

/// A command over points, in numbers.
#[derive(Drop)]
struct Draw {
    kind: Kind,
    /// Which query.
    query: i64,
    place: At,
    /// The other corner of a query's box.
    other: At,
    /// A query's limit, and the seed of a list.
    limit: i64,
    most: usize,
}

/// Numbers drawn from a seed.
#[derive(Drop)]
struct Numbers {
    state: i64,
}

impl Numbers {
    /// A number from 0 to another, without that.
    fn below(&mut self, end: i64) -> i64 {
        self.state = self
            .state
            .wrapping_mul(6364136223846793005)
            .wrapping_add(1442695040888963407);
        (self.state >> 33).checked_rem_euclid(end).unwrap_or(0)
    }

    /// A place of 144, so that places come again.
    fn place(&mut self) -> At {
        let x = self.below(12);
        [x, self.below(12)]
    }

    /// What a command does: mostly it inserts.
    fn kind(&mut self) -> Kind {
        match self.below(100) {
            0..=44 => Kind::Insert,
            45..=52 => Kind::Remove,
            53..=58 => Kind::RemoveAtPoint,
            59..=64 => Kind::PopNearest,
            65..=69 => Kind::Drain,
            70..=79 => Kind::Ask,
            80..=84 => Kind::Contains,
            85..=89 => Kind::Nearest,
            90..=94 => Kind::Neighbours,
            95..=97 => Kind::Join,
            _ => Kind::Load,
        }
    }

    fn draw(&mut self) -> Draw {
        Draw {
            kind: self.kind(),
            query: self.below(5),
            place: self.place(),
            other: self.place(),
            limit: self.below(20),
            most: usize::try_from(self.below(9)).unwrap_or(0),
        }
    }
}

/// The points of a list that a command brings.
fn brought(alloc: Global, draw: &Draw) -> Result<Vec<At>, AllocError> {
    let mut all = Vec::new(alloc);
    if draw.kind == Kind::LoadLine {
        for i in 0..draw.limit {
            all.push([i, 0])?;
        }
        return Ok(all);
    }
    let mut numbers = Numbers { state: draw.limit };
    for _ in 0..40 {
        all.push(numbers.place())?;
    }
    Ok(all)
}

fn query_of(draw: &Draw) -> Query<At> {
    let (place, other) = (draw.place, draw.other);
    match draw.query {
        0 => Query::All,
        1 => Query::In(AABB::from_corners(place, other)),
        2 => Query::Hit(AABB::from_corners(place, other)),
        3 => Query::At(place),
        _ => Query::Within(place, draw.limit),
    }
}

fn command_of(alloc: Global, draw: &Draw) -> Result<Command<At>, AllocError> {
    let place = draw.place;
    Ok(match draw.kind {
        Kind::Load | Kind::LoadLine => Command::Load(brought(alloc, draw)?),
        Kind::Insert => Command::Insert(place),
        Kind::Remove => Command::Remove(place),
        Kind::RemoveAtPoint => Command::RemoveAtPoint(place),
        Kind::PopNearest => Command::PopNearest(place),
        Kind::Drain => Command::Drain(query_of(draw), draw.most),
        Kind::Ask => Command::Ask(query_of(draw)),
        Kind::Contains => Command::Contains(place),
        Kind::Nearest => Command::Nearest(place),
        Kind::Neighbours => Command::Neighbours(place, draw.most),
        Kind::Join => Command::Join(brought(alloc, draw)?),
    })
}

fn squared_distance(one: &At, other: &At) -> i64 {
    let (x, y) = (one[0].wrapping_sub(other[0]), one[1].wrapping_sub(other[1]));
    x.wrapping_mul(x).wrapping_add(y.wrapping_mul(y))
}

fn is_between(one: i64, other: i64, number: i64) -> bool {
    (one <= number && number <= other) || (other <= number && number <= one)
}

/// Whether a query selects a point. A point's envelope lies in a box exactly where it meets it.
fn asks(draw: &Draw, point: &At) -> bool {
    let (place, other) = (draw.place, draw.other);
    match draw.query {
        0 => true,
        1 | 2 => is_between(place[0], other[0], point[0])
            && is_between(place[1], other[1], point[1]),
        3 => *point == place,
        _ => squared_distance(point, &place) <= draw.limit,
    }
}

/// Takes one item out of a list, and whether there is one.
fn take<A: PartialEq + Copy>(list: &mut Vec<A>, item: &A) -> bool {
    for place in 0..list.len() {
        if list[place] == *item {
            list.swap_remove(place);
            return true;
        }
    }
    false
}

/// Takes some points out of a list, and whether all are there.
fn take_all(list: &mut Vec<At>, points: &[At]) -> bool {
    for point in points {
        if !take(list, point) {
            return false;
        }
    }
    true
}

/// The points of a list that a query selects.
fn selected(alloc: Global, list: &[At], draw: &Draw) -> Result<Vec<At>, AllocError> {
    let mut all = Vec::new(alloc);
    for point in list {
        if asks(draw, point) {
            all.push(*point)?;
        }
    }
    Ok(all)
}

/// Whether no point of a list is nearer to a place than a squared distance.
fn none_is_nearer(list: &[At], place: &At, distance: i64) -> bool {
    for point in list {
        if squared_distance(point, place) < distance {
            return false;
        }
    }
    true
}

fn is_done(alloc: Global, list: &mut Vec<At>, draw: &Draw) -> Result<bool, AllocError> {
    match draw.kind {
        Kind::Load | Kind::LoadLine => *list = brought(alloc, draw)?,
        Kind::Insert => list.push(draw.place)?,
        _ => return Ok(false),
    }
    Ok(true)
}

fn is_taken(list: &mut Vec<At>, draw: &Draw, found: &Option<At>) -> bool {
    let place = draw.place;
    match (draw.kind, found) {
        (Kind::Remove | Kind::RemoveAtPoint, None) => !list.contains(&place),
        (Kind::Remove | Kind::RemoveAtPoint, Some(point)) => *point == place && take(list, point),
        (Kind::PopNearest, None) => list.is_empty(),
        (Kind::PopNearest, Some(point)) => {
            none_is_nearer(list, &place, squared_distance(point, &place)) && take(list, point)
        }
        _ => false,
    }
}

fn are_selected(
    alloc: Global,
    list: &mut Vec<At>,
    draw: &Draw,
    found: &[At],
) -> Result<bool, AllocError> {
    let mut all = selected(alloc, list, draw)?;
    let count = all.len();
    let right = take_all(&mut all, found);
    Ok(
        right
            && match draw.kind {
                Kind::Ask => found.len() == count,
                Kind::Drain => found.len() == draw.most.min(count) && take_all(list, found),
                _ => false,
            },
    )
}

fn is_nearest(list: &[At], draw: &Draw, found: Option<(At, i64)>) -> bool {
    let place = draw.place;
    let right = match found {
        None => list.is_empty(),
        Some(pair) => {
            let point = pair.0;
            pair.1 == squared_distance(&point, &place)
                && list.contains(&point)
                && none_is_nearer(list, &place, pair.1)
        }
    };
    right && draw.kind == Kind::Nearest
}

fn are_first(
    alloc: Global,
    list: &[At],
    draw: &Draw,
    found: &[(At, i64)],
) -> Result<bool, AllocError> {
    let place = draw.place;
    let mut rest = Vec::from_slice(alloc, list)?;
    let mut right = draw.kind == Kind::Neighbours && found.len() == draw.most.min(list.len());
    for (point, distance) in found {
        right = *distance == squared_distance(point, &place)
            && none_is_nearer(&rest, &place, *distance)
            && take(&mut rest, point)
            && right;
    }
    Ok(right)
}

fn are_pairs(
    alloc: Global,
    list: &[At],
    draw: &Draw,
    found: &[(At, At)],
) -> Result<bool, AllocError> {
    let mut all = Vec::new(alloc);
    for other in brought(alloc, draw)?.iter() {
        for one in list {
            if one == other {
                all.push((*one, *other))?;
            }
        }
    }
    let mut right = draw.kind == Kind::Join && found.len() == all.len();
    for pair in found {
        right = take(&mut all, pair) && right;
    }
    Ok(right)
}

/// Whether a reply is what a command is answered over a list, which is then what the command leaves of it.
fn is_right(
    alloc: Global,
    list: &mut Vec<At>,
    draw: &Draw,
    reply: &Reply<At>,
) -> Result<bool, AllocError> {
    match reply {
        Reply::Done => is_done(alloc, list, draw),
        Reply::Taken(found) => Ok(is_taken(list, draw, found)),
        Reply::Elements(found) => are_selected(alloc, list, draw, found),
        Reply::Has(found) => Ok(
            draw.kind == Kind::Contains && *found == list.contains(&draw.place),
        ),
        Reply::Nearest(found) => Ok(is_nearest(list, draw, *found)),
        Reply::Neighbours(found) => are_first(alloc, list, draw, found),
        Reply::Pairs(found) => are_pairs(alloc, list, draw, found),
        Reply::NoMemory | Reply::TooMany => Ok(false),
    }
}

/// A drawn command, and after it the question for all elements, so many times.
fn drawn(alloc: Global, count: usize) -> Vec<Draw> {
    let mut numbers = Numbers { state: 7 };
    let mut all = Vec::new(alloc);
    for _ in 0..count {
        let draw = numbers.draw();
        let all_points = Draw {
            kind: Kind::Ask,
            query: 0,
            ..draw
        };
        let _refused = all.push(draw).is_err();
        let _refused = all.push(all_points).is_err();
    }
    all
}

/// The commands that are drawn.
fn commands_of(alloc: Global, draws: &[Draw]) -> Result<Vec<Command<At>>, AllocError> {
    let mut commands = Vec::new(alloc);
    for draw in draws {
        commands.push(command_of(alloc, draw)?)?;
    }
    Ok(commands)
}

/// Whether a command, run by `step`, is answered over a tree as over a plain list, with as many points after it; one that
/// is not fit is not run.
fn is_answered(
    alloc: Global,
    tree: &mut RTree<At>,
    list: &mut Vec<At>,
    draw: &Draw,
) -> Result<bool, AllocError>
    requires { IsWholeTree ⟦<AABB<[i64; 2]> as Envelope>⟧.boxes ⟦<[i64; 2] as RTreeObject>⟧.object
        ⟦<DefaultParams as RTreeParams>⟧.MAX_SIZE tree.old }
    ensures { IsWholeTree ⟦<AABB<[i64; 2]> as Envelope>⟧.boxes ⟦<[i64; 2] as RTreeObject>⟧.object
        ⟦<DefaultParams as RTreeParams>⟧.MAX_SIZE tree.new }
{
    let command = command_of(alloc, draw)?;
    if !is_fit(&command) {
        return Ok(false);
    }
    let right = is_right(alloc, list, draw, &step_points(tree, command));
    Ok(right? && tree.size() == list.len())
}

/// The first of some commands, run one by one, that is not answered over a tree as over a plain list, with as many points
/// after it.
fn first_astray(alloc: Global, draws: &[Draw]) -> Result<Option<usize>, AllocError> {
    let mut tree: RTree<At> = RTree::default(alloc);
    let mut list = Vec::new(alloc);
    for k in 0..draws.len() {
        if !is_answered(alloc, &mut tree, &mut list, &draws[k])? {
            return Ok(Some(k));
        }
    }
    Ok(None)
}

#[test]
fn three_thousand_commands_are_answered_as_over_a_list(rt: HostRuntime) {
    let draws = drawn(rt.alloc(), 3000);
    assert_eq!(rt; draws.len(), 6000);
    assert_eq!(rt; first_astray(rt.alloc(), &draws), Ok(None));
}

/// How many elements a reply gives, or whether it gives one; none where it is refused.
fn given(reply: &Reply<At>) -> Option<usize> {
    match reply {
        Reply::Done => Some(0),
        Reply::Taken(found) => Some(usize::from(found.is_some())),
        Reply::Elements(all) => Some(all.len()),
        Reply::Has(found) => Some(usize::from(*found)),
        Reply::Nearest(found) => Some(usize::from(found.is_some())),
        Reply::Neighbours(all) => Some(all.len()),
        Reply::Pairs(all) => Some(all.len()),
        Reply::NoMemory | Reply::TooMany => None,
    }
}

/// What a command does, the place that it names, the number that it names, and how many elements its reply gives.
type Row = (Kind, At, usize, usize);

/// The commands of some rows.
fn draws_of(alloc: Global, rows: &[Row]) -> Vec<Draw> {
    let mut draws = Vec::new(alloc);
    for &(kind, place, number, _) in rows {
        let _refused = draws
            .push(Draw {
                kind,
                query: 0,
                place,
                other: place,
                limit: i64::try_from(number).unwrap_or(0),
                most: number,
            })
            .is_err();
    }
    draws
}

/// Whether replies give as many elements as rows say.
fn are_given(rows: &[Row], replies: &[Reply<At>]) -> bool {
    if replies.len() != rows.len() {
        return false;
    }
    for k in 0..rows.len() {
        if given(&replies[k]) != Some(rows[k].3) {
            return false;
        }
    }
    true
}

/// The number of points that a plain list has after commands that are answered so, where a refused one changes nothing;
/// none where one is not answered as over the list.
fn left_after(
    alloc: Global,
    draws: &[Draw],
    replies: &[Reply<At>],
) -> Result<Option<usize>, AllocError> {
    if replies.len() != draws.len() {
        return Ok(None);
    }
    let mut list = Vec::new(alloc);
    for k in 0..draws.len() {
        let reply = &replies[k];
        if given(reply).is_some() && !is_right(alloc, &mut list, &draws[k], reply)? {
            return Ok(None);
        }
    }
    Ok(Some(list.len()))
}

/// Whether a command was refused.
fn is_one_refused(replies: &[Reply<At>]) -> bool {
    for reply in replies {
        if given(reply).is_none() {
            return true;
        }
    }
    false
}

/// Whether the commands of some rows, run at once, give as many elements as the rows say; none where a command or all of
/// them are refused, and the others are answered as over a list, and the tree has as many points as that.
fn is_replayed(alloc: Global, rows: &[Row], draws: &[Draw], by_order: bool) -> Option<bool> {
    let Ok(commands) = commands_of(alloc, draws) else {
        return Some(false);
    };
    let (answered, left) = replies(alloc, commands, by_order);
    match &answered {
        Ok(all) => {
            if left.is_none() || left_after(alloc, draws, all) != Ok(left) {
                Some(false)
            } else if is_one_refused(all) {
                None
            } else {
                Some(are_given(rows, all))
            }
        }
        Err(_) => if left == Some(0) { None } else { Some(false) },
    }
}

/// The same, once more where it is refused.
fn are_replayed(alloc: Global, rows: &[Row], draws: &[Draw], by_order: bool) -> bool {
    let first = is_replayed(alloc, rows, draws, by_order);
    first == Some(true)
        || first.is_none() && is_replayed(alloc, rows, draws, by_order) == Some(true)
}

/// Whether the commands of some rows, run by one `replay` and by one `replay_by_order`, give as many elements as the rows
/// say, and run one by one are answered as over a list.
fn go(alloc: Global, rows: &[Row]) -> bool {
    let draws = draws_of(alloc, rows);
    are_replayed(alloc, rows, &draws, false)
        && are_replayed(alloc, rows, &draws, true)
        && first_astray(alloc, &draws) == Ok(None)
}

// A point that came twice leaves twice, and is joined twice; five that were loaded are drained, two and then the others.
#[test]
fn rows_of_commands(rt: HostRuntime) {
    const TWICE: [Row; 6] = [
        (Kind::Insert, [0, 2], 0, 0),
        (Kind::Insert, [0, 2], 0, 0),
        (Kind::Remove, [0, 2], 0, 1),
        (Kind::Remove, [0, 2], 0, 1),
        (Kind::Remove, [0, 2], 0, 0),
        (Kind::Ask, [0, 0], 0, 0),
    ];
    const JOINED: [Row; 3] = [
        (Kind::Insert, [0, 2], 0, 0),
        (Kind::Insert, [0, 2], 0, 0),
        // The list of this seed has the point once.
        (Kind::Join, [0, 2], 4, 2),
    ];
    const FIVE: [Row; 5] = [
        (Kind::LoadLine, [0, 0], 5, 0),
        (Kind::Drain, [0, 0], 2, 2),
        (Kind::Ask, [0, 0], 0, 3),
        (Kind::Drain, [0, 0], 9, 3),
        (Kind::Nearest, [0, 0], 0, 0),
    ];
    assert!(rt; go(rt.alloc(), &TWICE));
    assert!(rt; go(rt.alloc(), &JOINED));
    assert!(rt; go(rt.alloc(), &FIVE));
}

/// The number of pairs that commands join of an element that comes twice and another one; none where one is refused.
fn pairs_of_two<T: PointDistance + EqualEnvelopes + Copy + Ord>(
    alloc: Global,
    twice: T,
    other: T,
) -> Result<Option<usize>, AllocError>
    requires { ClonesEqual T.is_clone }
{
    let mut list = Vec::new(alloc);
    list.push(other)?;
    let mut commands = Vec::new(alloc);
    commands.push(Command::Insert(twice))?;
    commands.push(Command::Insert(twice))?;
    commands.push(Command::Join(list))?;
    let mut tree: RTree<T> = RTree::default(alloc);
    match replied(alloc, &mut tree, commands, false)?.last() {
        Some(Reply::Pairs(pairs)) => Ok(Some(pairs.len())),
        _ => Ok(None),
    }
}

#[test]
fn a_rectangle_that_came_twice_is_joined_twice(rt: HostRuntime) {
    let two = Rectangle::from_corners([0i64, 0], [2, 2]);
    let touching = Rectangle::from_corners([2, 2], [4, 4]);
    assert!(rt; pairs_of_two(rt.alloc(), two, touching) == Ok(Some(2)));
}
