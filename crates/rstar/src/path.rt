//! The paths of traversals: lists whose first twelve items lie inline.

ghost use Rattle.std.specs.Prelude.{◌≡◌, ◌-◌, ◌<◌, ◌≤◌, true, false, [], ◌∷◌, ◌++◌, length, take, IsOk, IfOk, IfNone, IfSome, slice_set};
ghost use Rattle.rstar.specs.inside.Paths.{near_items};

use std::alloc::{AllocError, Global};
use std::marker::Model;

/// The number of inline items.
const NEAR: usize = 12;

/// Twelve inline places. They are fields and no array, since generic code over an array beside inline items
/// would have to bound its size.
#[derive(Drop)]
struct Near<X> {
    p0: X,
    p1: X,
    p2: X,
    p3: X,
    p4: X,
    p5: X,
    p6: X,
    p7: X,
    p8: X,
    p9: X,
    p10: X,
    p11: X,
}

impl<X: Copy> Near<X> {
    /// The last of `count` items.
    fn last(&self, count: usize) -> Option<X>
        requires { count ≤ 12 }
        ensures some { IfSome result (λ item. take count (near_items self.now)
            ≡ take (count - 1) (near_items self.now) ++ item ∷ []) }
        ensures none { IfNone result (count ≡ 0) }
    {
        match count {
            0 => None,
            1 => Some(self.p0),
            2 => Some(self.p1),
            3 => Some(self.p2),
            4 => Some(self.p3),
            5 => Some(self.p4),
            6 => Some(self.p5),
            7 => Some(self.p6),
            8 => Some(self.p7),
            9 => Some(self.p8),
            10 => Some(self.p9),
            11 => Some(self.p10),
            _ => Some(self.p11),
        }
    }

    /// Sets the item at a place. Whether there is such a place.
    fn set(&mut self, place: usize, item: X) -> bool
        ensures set { result ≡ true
            → (place < 12) × (near_items self.new ≡ slice_set (near_items self.old) place item) }
        ensures none { result ≡ false → (12 ≤ place) × (self.new ≡ self.old) }
    {
        match place {
            0 => self.p0 = item,
            1 => self.p1 = item,
            2 => self.p2 = item,
            3 => self.p3 = item,
            4 => self.p4 = item,
            5 => self.p5 = item,
            6 => self.p6 = item,
            7 => self.p7 = item,
            8 => self.p8 = item,
            9 => self.p9 = item,
            10 => self.p10 = item,
            11 => self.p11 = item,
            _ => return false,
        }
        true
    }
}

/// The path of a traversal: one item for each level, the lowest last. Up to twelve items lie inline; deeper
/// paths take an allocation.
#[derive(Drop)]
pub(crate) struct Path<X> {
    near: Near<X>,
    len: usize,
    far: Vec<X>,
}

impl<X> Model for Path<X> {
    ghost use Rattle.std.specs.Prelude.{◌≡◌, ◌+◌, ◌<◌, ◌≤◌, [], ◌++◌, take, vec_capacity};
    ghost use Rattle.rstar.specs.inside.Paths.{Path as Items, path_code, near_items};

    ghost Value = { Items X };

    ghost coded = { path_code X.code };

    ghost view = { λ p. record {
      items = take p.len (near_items p.near)
          ++ p.far.items;
      capacity = 12 + vec_capacity p.far;
    } };

    ghost invariant = { λ p. (p.len ≤ 12) × (p.len < 12 → p.far.items ≡ []) };
}

impl<X: Copy> Path<X> {
    /// An empty path with room for this many items. Up to twelve take no memory.
    pub(crate) fn with_room(alloc: Global, blank: X, room: usize) -> Result<Self, AllocError>
        ensures empty { IfOk result (λ path. path.items ≡ []) }
        ensures room { IfOk result (λ path. room ≤ path.capacity) }
        ensures small { IfOk result (λ path. path.capacity < usize.MAX) }
        ensures near { room ≤ 12 → IsOk result }
    {
        let far = if room > NEAR {
            Vec::with_capacity(alloc, room - NEAR)?
        } else {
            Vec::new(alloc)
        };
        Ok(Path {
            near: Near {
                p0: blank,
                p1: blank,
                p2: blank,
                p3: blank,
                p4: blank,
                p5: blank,
                p6: blank,
                p7: blank,
                p8: blank,
                p9: blank,
                p10: blank,
                p11: blank,
            },
            len: 0,
            far,
        })
    }

    /// Pushes an item, for which there is room.
    pub(crate) fn push_reserved(&mut self, item: X)
        requires { length self.old.items < self.old.capacity }
        ensures items { self.new.items ≡ self.old.items ++ item ∷ [] }
        ensures capacity { self.new.capacity ≡ self.old.capacity }
    {
        if self.near.set(self.len, item) {
            self.len += 1;
        } else {
            self.far.push_reserved(item);
        }
    }

    /// Pops the last item.
    pub(crate) fn pop(&mut self) -> Option<X>
        ensures some { IfSome result (λ item. self.old.items ≡ self.new.items ++ item ∷ []) }
        ensures none { IfNone result ((self.old.items ≡ []) × (self.new.items ≡ [])) }
        ensures capacity { self.new.capacity ≡ self.old.capacity }
    {
        if self.len == NEAR {
            if let Some(item) = self.far.pop() {
                return Some(item);
            }
        }
        let item = self.near.last(self.len)?;
        self.len -= 1;
        Some(item)
    }
}
