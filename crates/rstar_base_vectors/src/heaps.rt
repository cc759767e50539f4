//! Tests of the small heap.

ghost use Rattle.std.specs.Ordering.{int_cmp};
ghost use Rattle.rstar_base.specs.SmallHeaps.{IsOrdered};

use crate::marks::is_marked;
use rstar_base::heap::SmallHeap;
use std::alloc::Global;

/// A step of a test.
#[derive(Drop)]
enum Step {
    /// Pushes the numbers from the first up to the second, exclusive.
    Push(i32, i32),
    /// Pushes them between two marks. From the third number on one may be refused: it is handed back and pushed again.
    Refused(i32, i32, i32),
    /// Adds these numbers by one `extend`.
    Extend(i32, i32),
    /// Pops the numbers from the first down to the second, inclusive.
    Pop(i32, i32),
    /// Pops from an empty heap.
    End,
}

/// Pushes the numbers from `from` up to `end`, exclusive. Whether no push is refused.
fn pushes(heap: &mut SmallHeap<i32>, from: i32, end: i32) -> bool
    requires { IsOrdered int_cmp heap.old }
    ensures { IsOrdered int_cmp heap.new }
{
    for number in from..end {
        if heap.push(number).is_err() {
            return false;
        }
    }
    true
}

/// Whether the same pushes succeed, where a number from `sure` on may be refused once and is handed back.
fn pushes_again(heap: &mut SmallHeap<i32>, from: i32, end: i32, sure: i32) -> bool
    requires { IsOrdered int_cmp heap.old }
    ensures { IsOrdered int_cmp heap.new }
{
    for number in from..end {
        if let Err(refused) = heap.push(number) {
            if number < sure || refused != number || heap.push(refused).is_err() {
                return false;
            }
        }
    }
    true
}

/// Whether the next pops give the numbers from `from` down to `end`, inclusive.
fn pops_down(heap: &mut SmallHeap<i32>, from: i32, end: i32) -> bool
    requires { IsOrdered int_cmp heap.old }
    ensures { IsOrdered int_cmp heap.new }
{
    for number in (end..from.saturating_add(1)).rev() {
        if heap.pop() != Some(number) {
            return false;
        }
    }
    true
}

/// Whether a step goes as expected.
fn goes(alloc: Global, heap: &mut SmallHeap<i32>, step: &Step) -> bool
    requires { IsOrdered int_cmp heap.old }
    ensures { IsOrdered int_cmp heap.new }
{
    match step {
        Step::Push(from, end) => pushes(heap, *from, *end),
        Step::Refused(from, end, sure) => {
            is_marked(alloc) & pushes_again(heap, *from, *end, *sure) & is_marked(alloc)
        }
        Step::Extend(from, end) => heap.extend(*from..*end).is_ok(),
        Step::Pop(from, end) => pops_down(heap, *from, *end),
        Step::End => heap.pop().is_none(),
    }
}

/// Whether all steps go as expected, on one heap.
fn all_go(alloc: Global, steps: &[Step]) -> bool {
    let mut heap = SmallHeap::new(alloc);
    for step in steps {
        if !goes(alloc, &mut heap, step) {
            return false;
        }
    }
    true
}

#[test]
fn the_greatest_leaves_first(rt: HostRuntime) {
    // Eight of forty numbers lie in the list, and leave first; a greater and a lesser one come in between.
    let first = [
        Step::Push(1, 41),
        Step::Pop(40, 33),
        Step::Push(0, 1),
        Step::Push(50, 51),
        Step::Pop(50, 50),
        Step::Pop(32, 0),
        Step::End,
    ];
    assert!(rt; all_go(rt.alloc(), &first));
    // Twenty of forty numbers left: twelve more find their places inline, which takes no memory; of those after them one needs a
    // longer list.
    let twelve_more = [
        Step::Push(1, 41),
        Step::Pop(40, 21),
        Step::Refused(100, 150, 112),
        Step::Pop(149, 100),
        Step::Pop(20, 1),
    ];
    assert!(rt; all_go(rt.alloc(), &twelve_more));
    // An emptied heap that was long is extended too; with few items held that takes no memory.
    let extended = [
        Step::Extend(1, 41),
        Step::Pop(40, 1),
        Step::End,
        Step::Extend(1, 33),
        Step::Extend(7, 7),
        Step::Pop(32, 1),
    ];
    assert!(rt; all_go(rt.alloc(), &extended));
}
