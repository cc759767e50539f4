//! A priority queue whose first items lie inline.

ghost use Rattle.std.specs.Prelude.{◌≡◌, ℕ, ◌+◌, ◌*◌, ◌<◌, ◌≤◌, List, [], ◌∷◌, ◌++◌, length, slice_index_or, All, true, false, Option, Some, None, IsOk, IsSome, IfSome, IfNone, OnOk, OnErr, IfErr, vec_len, vec_capacity};
ghost use Rattle.std.specs.List.{insert, AllByRecursion};
ghost use Rattle.std.specs.List.Sorted.{IsPermutation};
ghost use Rattle.std.specs.Ordering.{is_lt};
ghost use Rattle.std.specs.Option.{option_cmp};
ghost use Rattle.std.specs.Iterator.{Drains, size};
ghost use Rattle.std.specs.BinaryHeap.{IsHeap, IsUpperBound};
ghost use Rattle.std.specs.BinaryHeap.Sift.{ComparesAt, SiftsUp, SiftsDown, IsGreaterChild};
ghost use Rattle.rstar_base.specs.SmallHeaps.{items_of, present, Rises, IsFilled, IsOrdered};

use arrayvec::ArrayVec;
use std::alloc::{AllocError, Global};
use std::marker::Model;

/// The number of inline places.
const INLINE: usize = 32;

/// A priority queue: `pop` removes a greatest item.
///
/// Up to 32 items lie inline, sorted, the greatest last. Further items go into a binary heap. A push takes
/// no memory while at most 31 items are held.
#[derive(Drop)]
pub struct SmallHeap<T> {
    // Each place that is taken holds an item.
    inline: ArrayVec<Option<T>, 32>,
    rest: Vec<T>,
}

impl<T> Model for SmallHeap<T> {
    ghost use Rattle.rstar_base.specs.SmallHeaps.{Held, held_code};

    ghost Value = { Held T };

    ghost coded = { held_code T.code };

    ghost use Rattle.rstar_base.specs.SmallHeaps.{present, IsFilled};

    ghost view = { λ h. record { inline = present h.inline.items; rest = h.rest.items } };

    ghost invariant = { λ h. IsFilled h.inline };
}

impl<T: Ord + Drop> SmallHeap<T> {
    /// An empty queue. It takes no memory.
    pub fn new(alloc: Global) -> Self
        ensures none { items_of result ≡ [] }
        ensures ordered { IsOrdered T.cmp result }
    {
        SmallHeap {
            inline: ArrayVec::new(),
            rest: Vec::new(alloc),
        }
    }

    /// Adds an item. A refusal hands it back and changes nothing; with at most 31 items held there is none.
    ///
    /// It costs a comparison with each greater inline item, or a push on the binary heap.
    pub fn push(&mut self, item: T) -> Result<(), T>
        requires { IsOrdered T.cmp self.old }
        ensures ordered { IsOrdered T.cmp self.new }
        ensures ok { OnOk result (IsPermutation (item ∷ items_of self.old) (items_of self.new)) }
        ensures err { OnErr result (self.new ≡ self.old) }
        ensures returned { IfErr result (λ x. x ≡ item) }
        ensures inline { length (items_of self.old) < 32 → IsOk result }
    {
        if self.inline.len() < INLINE {
            put_inline(&mut self.inline, item);
            return Ok(());
        }
        match make_room(&mut self.rest) {
            Ok(()) => {
                put_in_heap(&mut self.rest, item);
                Ok(())
            }
            Err(_refused) => Err(item),
        }
    }

    /// Removes a greatest item. `None` comes exactly where the queue is empty. It takes no memory.
    pub fn pop(&mut self) -> Option<T>
        requires { IsOrdered T.cmp self.old }
        ensures ordered { IsOrdered T.cmp self.new }
        ensures none { IfNone result (items_of self.old ≡ []) }
        ensures stays { IfNone result (items_of self.new ≡ []) }
        ensures some { IfSome result (λ x. IsPermutation (items_of self.old) (x ∷ items_of self.new)) }
        ensures greatest { IfSome result (λ x. All (λ y. is_lt (T.cmp x y) ≡ false) (items_of self.new)) }
    {
        if is_above_all(self.rest.as_slice(), self.inline.as_slice()) {
            Some(take_greatest(&mut self.rest))
        } else {
            take_last(&mut self.inline)
        }
    }

    /// Adds all items, or none where memory is refused. Then the iterator is dropped.
    ///
    /// Memory is taken once, before the first item is added.
    pub fn extend<I: ExactSizeIterator<Item = T> + Drop>(
        &mut self,
        iter: I,
    ) -> Result<(), AllocError>
        requires ordered { IsOrdered T.cmp self.old }
        requires items { I.can_next iter }
        ensures ordered { IsOrdered T.cmp self.new }
        ensures ok { OnOk result ((xs : List T) × Drains I.next_gives iter xs
            × IsPermutation (items_of self.old ++ xs) (items_of self.new)) }
        ensures err { OnErr result (self.new ≡ self.old) }
        ensures inline { length (items_of self.old) + size (I.remaining iter) ≤ 32 → IsOk result }
    {
        let free = INLINE - self.inline.len();
        self.rest.reserve(iter.len().saturating_sub(free))?;
        for item in iter {
            put(&mut self.inline, &mut self.rest, item);
        }
        Ok(())
    }
}

/// Adds an item for which there is a place or room.
fn put<T: Ord + Drop>(inline: &mut ArrayVec<Option<T>, 32>, rest: &mut Vec<T>, item: T)
    requires filled { IsFilled inline.old }
    requires rises { Rises T.cmp (present inline.old.items) }
    requires heap { IsHeap T.cmp rest.old.items }
    requires room { length inline.old.items + vec_len rest.old < 32 + vec_capacity rest.old }
    ensures filled { IsFilled inline.new }
    ensures rises { Rises T.cmp (present inline.new.items) }
    ensures heap { IsHeap T.cmp rest.new.items }
    ensures bag { IsPermutation (item ∷ (present inline.old.items ++ rest.old.items))
        (present inline.new.items ++ rest.new.items) }
    ensures len { length inline.new.items + vec_len rest.new ≡ length inline.old.items + vec_len rest.old + 1 }
    ensures capacity { vec_capacity rest.new ≡ vec_capacity rest.old }
{
    if inline.len() < INLINE {
        put_inline(inline, item);
    } else {
        put_in_heap(rest, item);
    }
}

/// Adds an item to the inline ones, of which one place is free.
fn put_inline<T: Ord + Drop>(inline: &mut ArrayVec<Option<T>, 32>, item: T)
    requires filled { IsFilled inline.old }
    requires free { length inline.old.items < 32 }
    requires rises { Rises T.cmp (present inline.old.items) }
    ensures filled { IsFilled inline.new }
    ensures rises { Rises T.cmp (present inline.new.items) }
    ensures bag { IsPermutation (item ∷ present inline.old.items) (present inline.new.items) }
    ensures len { length inline.new.items ≡ length inline.old.items + 1 }
{
    inline.push(None);
    put_in_order(inline.as_mut_slice(), item);
}

/// Inserts an item into a sorted list whose last place is free. Each greater item moves up by one place, so
/// no place is written twice.
fn put_in_order<T: Ord + Drop>(items: &mut [Option<T>], item: T)
    requires { 0 < length items.old }
    ensures { (front : List (Option T)) → items.old ≡ front ++ None ∷ [] → (at : ℕ)
        × (items.new ≡ insert front at (Some item))
        × (Rises (option_cmp T.cmp) front → Rises (option_cmp T.cmp) (insert front at (Some item))) }
{
    let mut at = items.len() - 1;
    while 0 < at && is_less_than(&item, &items[at - 1]) {
        items[at] = items[at - 1].take();
        at -= 1;
    }
    items[at] = Some(item);
}

/// Whether an item is less than the item of a place.
fn is_less_than<T: Ord>(item: &T, place: &Option<T>) -> bool
    ensures { result ≡ is_lt (option_cmp T.cmp (Some item.now) place.now) }
{
    match place {
        Some(other) => item.cmp(other).is_lt(),
        None => false,
    }
}

/// Makes room for an item: for 32 more where there is none, so that items seldom move.
fn make_room<T>(rest: &mut Vec<T>) -> Result<(), AllocError>
    ensures items { rest.new.items ≡ rest.old.items }
    ensures room { OnOk result (vec_len rest.new < vec_capacity rest.new) }
{
    if rest.len() < rest.capacity() {
        return Ok(());
    }
    rest.reserve(INLINE)
}

/// Adds an item to the binary heap, which has room.
fn put_in_heap<T: Ord>(rest: &mut Vec<T>, item: T)
    requires heap { IsHeap T.cmp rest.old.items }
    requires room { vec_len rest.old < vec_capacity rest.old }
    ensures heap { IsHeap T.cmp rest.new.items }
    ensures bag { IsPermutation (item ∷ rest.old.items) rest.new.items }
    ensures len { vec_len rest.new ≡ vec_len rest.old + 1 }
    ensures capacity { vec_capacity rest.new ≡ vec_capacity rest.old }
{
    let at = rest.len();
    rest.push_reserved(item);
    sift_up(rest.as_mut_slice(), at);
}

/// Whether the first item of a binary heap is greater than all items of a sorted list.
fn is_above_all<T: Ord>(others: &[T], items: &[Option<T>]) -> bool
    requires full { AllByRecursion IsSome items.now }
    requires rises { Rises T.cmp (present items.now) }
    requires heap { IsHeap T.cmp others.now }
    ensures there { result ≡ true → 0 < length others.now }
    ensures above { result ≡ true → (d : T)
        → AllByRecursion (λ y. is_lt (T.cmp (slice_index_or others.now 0 d) y) ≡ false) (present items.now) }
    ensures none { result ≡ false → present items.now ≡ [] → others.now ≡ [] }
    ensures below { result ≡ false → (xs : List T) (x : T) → present items.now ≡ xs ++ x ∷ []
        → IsUpperBound T.cmp x others.now }
{
    let Some(first) = others.first() else {
        return false;
    };
    match items.last() {
        Some(Some(last)) => last.cmp(first).is_lt(),
        _ => true,
    }
}

/// Removes the last inline item.
fn take_last<T: Drop>(inline: &mut ArrayVec<Option<T>, 32>) -> Option<T>
    requires { IsFilled inline.old }
    ensures filled { IsFilled inline.new }
    ensures none { IfNone result (inline.old.items ≡ []) }
    ensures stays { IfNone result (inline.new.items ≡ []) }
    ensures some { IfSome result (λ x. present inline.old.items ≡ present inline.new.items ++ x ∷ []) }
{
    inline.pop().flatten()
}

/// Removes the greatest item of a binary heap.
fn take_greatest<T: Ord>(rest: &mut Vec<T>) -> T
    requires heap { IsHeap T.cmp rest.old.items }
    requires some { 0 < vec_len rest.old }
    ensures heap { IsHeap T.cmp rest.new.items }
    ensures bag { IsPermutation rest.old.items (result ∷ rest.new.items) }
    ensures first { result ≡ slice_index_or rest.old.items 0 result }
    ensures greatest { IsUpperBound T.cmp result rest.old.items }
{
    let top = rest.swap_remove(0);
    sift_down(rest.as_mut_slice());
    top
}

/// Whether the item at one place is less than that at another.
fn is_less<X: Ord>(items: &[X], a: usize, b: usize) -> bool
    requires { (a < length items.now) × (b < length items.now) }
    ensures { ComparesAt X.cmp items.now a b result }
{
    items[a].cmp(&items[b]).is_lt()
}

/// Moves the item at a place up past those that are less.
fn sift_up<X: Ord>(items: &mut [X], start: usize)
    requires { start < length items.old }
    ensures same { IsPermutation items.old items.new }
    ensures rises { SiftsUp X.cmp items.old start items.new }
{
    let mut at = start;
    while 0 < at && is_less(items, (at - 1) / 2, at) {
        let up = (at - 1) / 2;
        items.swap(up, at);
        at = up;
    }
}

/// Moves the first item down past those that are greater.
fn sift_down<X: Ord>(items: &mut [X])
    ensures same { IsPermutation items.old items.new }
    ensures sinks { SiftsDown X.cmp items.old 0 (length items.old) items.new }
{
    let len = items.len();
    let mut at = 0;
    while at < len / 2 {
        let child = greater_child(items, at);
        if !is_less(items, at, child) {
            return;
        }
        items.swap(at, child);
        at = child;
    }
}

/// The place of the greater child of an item.
fn greater_child<X: Ord>(items: &[X], at: usize) -> usize
    requires { at * 2 + 1 < length items.now }
    ensures bound { (result < length items.now) × (at * 2 + 1 ≤ result) × (result ≤ at * 2 + 2) }
    ensures best { IsGreaterChild X.cmp items.now at result (length items.now) }
{
    let left = at * 2 + 1;
    if left + 1 == items.len() {
        return left;
    }
    if is_less(items, left + 1, left) {
        left
    } else {
        left + 1
    }
}
