//! Envelopes that count: each element counts once in every parent above it.

ghost use Rattle.std.specs.Prelude.{◌≡◌, ◌<◌, ◌↔◌, ◌⊎◌, min, length, IfOk, OnErr};
ghost use Rattle.std.specs.List.{AllByRecursion};
ghost use Rattle.rstar.specs.declared.replay.Reply.TheVariants.{TooMany};
ghost use Rattle.rstar.specs.Heights.{height_of, spare_lists};
ghost use Rattle.rstar.specs.Steps.{IsFit, IsInsertion, IsRefusal, Step, Run};
ghost use Rattle.rstar.specs.StepsOfTrees.{RunOfTree};
ghost use Rattle.rstar.specs.Trees.{root_of, size_of, elements_in, IsUnchanged, IsWholeTree};

use crate::scenarios::{inserted, let_go, stands_with};
use crate::trials::{ALL, By, Drained, Order, Step as Turn, go_through};
use rstar::replay::{Command, Query, Reply, Scanned, all_fit, replay, step};
use rstar::{AABB, Counted, DefaultParams, Envelope, Point, RTree, RTreeObject, RTreeParams};
use rstar_base_vectors::counted::Place;
use std::alloc::{AllocError, Global};

type At = [i64; 2];

/// What the envelope of a tree's root counts: each element once.
pub fn count_at_root<P: Point>(tree: &RTree<Place<P>>) -> usize
    requires { IsWholeTree ⟦<Counted<P> as Envelope>⟧.boxes ⟦<Place<P> as RTreeObject>⟧.object
        ⟦<DefaultParams as RTreeParams>⟧.MAX_SIZE tree.now }
    ensures { result ≡ min (length (elements_in tree.now)) usize.MAX }
{
    tree.root().envelope().count()
}

/// Whether the root of a tree of these places counts so many.
fn counts_all<P: Point + Copy>(alloc: Global, places: &[Place<P>], count: usize) -> bool {
    let tree = inserted::<_, DefaultParams>(alloc, places);
    let is_so = count_at_root(&tree) == count;
    let_go(tree);
    is_so
}

/// Runs one command over places.
fn step_places(tree: &mut RTree<Place<At>>, command: Command<Place<At>>) -> Reply<Place<At>>
    requires whole { IsWholeTree ⟦<Counted<[i64; 2]> as Envelope>⟧.boxes ⟦<Place<[i64; 2]> as RTreeObject>⟧.object
        ⟦<DefaultParams as RTreeParams>⟧.MAX_SIZE tree.old }
    requires fit { IsFit ⟦<Place<[i64; 2]> as Scanned>⟧.questions 2 command }
    ensures step { Step ⟦<Place<[i64; 2]> as Scanned>⟧.questions (elements_in tree.old) command result
        (elements_in tree.new) }
    ensures whole { IsWholeTree ⟦<Counted<[i64; 2]> as Envelope>⟧.boxes ⟦<Place<[i64; 2]> as RTreeObject>⟧.object
        ⟦<DefaultParams as RTreeParams>⟧.MAX_SIZE tree.new }
    ensures refused { IsRefusal result → IsUnchanged tree.old tree.new }
    ensures too_many { (result ≡ TooMany) ↔ (IsInsertion command × ((size_of tree.old ≡ usize.MAX)
        ⊎ (usize.MAX < spare_lists ⟦<DefaultParams as RTreeParams>⟧.REINSERTION_COUNT
        (height_of (root_of tree.old))))) }
{
    step(tree, command)
}

/// Runs commands over places.
fn replay_places(
    tree: &mut RTree<Place<At>>,
    commands: Vec<Command<Place<At>>>,
) -> Result<Vec<Reply<Place<At>>>, AllocError>
    requires whole { IsWholeTree ⟦<Counted<[i64; 2]> as Envelope>⟧.boxes ⟦<Place<[i64; 2]> as RTreeObject>⟧.object
        ⟦<DefaultParams as RTreeParams>⟧.MAX_SIZE tree.old }
    requires fit { AllByRecursion (IsFit ⟦<Place<[i64; 2]> as Scanned>⟧.questions 2) commands.items }
    ensures run { IfOk result (λ replies. Run ⟦<Place<[i64; 2]> as Scanned>⟧.questions
        (elements_in tree.old) commands.items replies.items (elements_in tree.new)) }
    ensures steps { IfOk result (λ replies. RunOfTree ⟦<Counted<[i64; 2]> as Envelope>⟧.boxes
        ⟦<Place<[i64; 2]> as RTreeObject>⟧.object ⟦<DefaultParams as RTreeParams>⟧.MAX_SIZE
        ⟦<DefaultParams as RTreeParams>⟧.REINSERTION_COUNT (Step ⟦<Place<[i64; 2]> as Scanned>⟧.questions)
        tree.old commands.items replies.items tree.new) }
    ensures none_run { OnErr result (tree.new ≡ tree.old) }
    ensures whole { IsWholeTree ⟦<Counted<[i64; 2]> as Envelope>⟧.boxes ⟦<Place<[i64; 2]> as RTreeObject>⟧.object
        ⟦<DefaultParams as RTreeParams>⟧.MAX_SIZE tree.new }
{
    replay(tree, commands)
}

/// The commands by which places go in, one after another, and so many are drained.
fn in_and_out(
    alloc: Global,
    places: &[Place<At>],
    most: usize,
) -> Result<Vec<Command<Place<At>>>, AllocError> {
    let mut commands = Vec::new(alloc);
    for place in places {
        commands.push(Command::Insert(*place))?;
    }
    commands.push(Command::Drain(Query::All, most))?;
    Ok(commands)
}

/// Whether the root counts each place once after such commands, and after one more drain of one.
fn counts_after_commands(alloc: Global, places: &[Place<At>], most: usize) -> bool {
    let commands = match in_and_out(alloc, places, most) {
        Ok(commands) if all_fit(&commands) => commands,
        _ => return false,
    };
    let mut tree = RTree::default(alloc);
    let left = places.len().saturating_sub(most);
    let is_run = replay_places(&mut tree, commands).is_ok();
    let is_so = is_run & stands_with(&tree, left) & (count_at_root(&tree) == left);
    let is_out = matches!(
        step_places(&mut tree, Command::Drain(Query::All, 1)),
        Reply::Elements(_)
    );
    let count = count_at_root(&tree);
    let_go(tree);
    is_so & is_out & (count.saturating_add(1) == left)
}

/// So many places, numbered from 0, on a line that wraps around in both coordinates.
fn places(alloc: Global, count: usize) -> Vec<Place<[i64; 2]>> {
    let mut places = Vec::new(alloc);
    for number in 0..count {
        let near = number % 10000;
        let _refused = places
            .push(Place {
                number: number as u64,
                at: [((37 * near) % 101) as i64, ((53 * near) % 103) as i64],
            })
            .is_err();
    }
    places
}

// rstar's `test_envelopes_merge_every_element_once`, and drains after it: a load of 500, 1,500 insertions, which
// reinsert, and 1,000 removals. The tree stands after each: each parent counts those below it, each once.
#[test]
fn every_element_is_merged_once(rt: HostRuntime) {
    const STEPS: [Turn; 10] = [
        Turn::In(500, ALL),
        Turn::Out(0, 1000, Order::Forward, By::Equality),
        Turn::Drain(Drained::All, 300, 300),
        Turn::Left(700),
        Turn::Drain(Drained::All, 300, 300),
        Turn::Left(400),
        Turn::Drain(Drained::All, 300, 300),
        Turn::Left(100),
        Turn::Drain(Drained::All, 300, 100),
        Turn::Left(0),
    ];
    let all = &places(rt.alloc(), 2000);
    let none = (Counted::new(AABB::from_point([0, 0])), [0, 0], 0);
    let some = all.split_at(all.len().min(1000)).0;
    assert!(rt; counts_all(rt.alloc(), some, 1000));
    assert_eq!(rt;
        go_through::<_, DefaultParams>(rt.alloc(), all, 500, &none, &STEPS),
        Ok(())
    );
}

#[test]
fn commands_count_every_element_once(rt: HostRuntime) {
    assert!(rt; counts_after_commands(rt.alloc(), &places(rt.alloc(), 500), 200));
}
