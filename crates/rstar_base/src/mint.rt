//! Points with named coordinates.

ghost use Rattle.std.specs.Prelude.{[], ◌∷◌, pos, refl, slice_index_or};
ghost use Rattle.rstar_base.specs.Points.{list_coord, after_write};
ghost use Rattle.rstar_base.specs.laws.TupleLemmas.{tuple-forth, tuple-with, tuple-eq, triple-eq};

use crate::point::{Point, RTreeNum};

/// A point with two coordinates.
#[derive(Clone, Copy, Debug, PartialEq, Eq, Drop)]
pub struct Point2<T> {
    /// The first coordinate.
    pub x: T,
    /// The second coordinate.
    pub y: T,
}

/// A point with three coordinates.
#[derive(Clone, Copy, Debug, PartialEq, Eq, Drop)]
pub struct Point3<T> {
    /// The first coordinate.
    pub x: T,
    /// The second coordinate.
    pub y: T,
    /// The third coordinate.
    pub z: T,
}

impl<S: RTreeNum> Point for Point2<S> {
    type Scalar = S;

    const DIMENSIONS: usize = 2;

    ghost DIMENSIONS = { 2 };

    ghost coord = { λ p i. list_coord S.value S.zero (p.x ∷ p.y ∷ []) i };

    ghost of_coords = { λ zs.
        record { x = S.of_value (slice_index_or zs 0 (pos 0)); y = S.of_value (slice_index_or zs 1 (pos 0)) } };

    ghost with = { λ p i s. record { x = after_write i s 0 p.x; y = after_write i s 1 p.y } };

    fn generate<F: FnMut(usize) -> S>(mut generator: F) -> Point2<S> {
        let x = generator(0);
        let y = generator(1);
        Point2 { x, y }
    }

    fn nth(&self, index: usize) -> S {
        match index {
            0 => self.x,
            1 => self.y,
            _ => unreachable!(),
        }
    }

    fn nth_mut(&mut self, index: usize) -> &mut S {
        match index {
            0 => &mut self.x,
            1 => &mut self.y,
            _ => unreachable!(),
        }
    }

    ghost coords_of_law = { λ zs h. tuple-forth S.value S.of_value S.low S.high S.value_of_law 2 zs h };

    ghost with_law = { λ p i s j _ _ l. tuple-with S.value S.zero (p.x ∷ p.y ∷ []) i s j l };

    ghost same_law = { λ p q.
        (tuple-eq S.eq S.value (λ a b. S.eq_law a b S.exact_law) p.x q.x (p.y ∷ []) (q.y ∷ []) refl).0 };

    ghost eq_law = { λ p q _ _. tuple-eq S.eq S.value (λ a b. S.eq_law a b S.exact_law) p.x q.x (p.y ∷ []) (q.y ∷ [])
        refl };
}

impl<S: RTreeNum> Point for Point3<S> {
    type Scalar = S;

    const DIMENSIONS: usize = 3;

    ghost DIMENSIONS = { 3 };

    ghost coord = { λ p i. list_coord S.value S.zero (p.x ∷ p.y ∷ p.z ∷ []) i };

    ghost of_coords = { λ zs.
        record {
          x = S.of_value (slice_index_or zs 0 (pos 0));
          y = S.of_value (slice_index_or zs 1 (pos 0));
          z = S.of_value (slice_index_or zs 2 (pos 0));
        } };

    ghost with = { λ p i s.
        record { x = after_write i s 0 p.x; y = after_write i s 1 p.y; z = after_write i s 2 p.z } };

    fn generate<F: FnMut(usize) -> S>(mut generator: F) -> Point3<S> {
        let x = generator(0);
        let y = generator(1);
        let z = generator(2);
        Point3 { x, y, z }
    }

    fn nth(&self, index: usize) -> S {
        match index {
            0 => self.x,
            1 => self.y,
            2 => self.z,
            _ => unreachable!(),
        }
    }

    fn nth_mut(&mut self, index: usize) -> &mut S {
        match index {
            0 => &mut self.x,
            1 => &mut self.y,
            2 => &mut self.z,
            _ => unreachable!(),
        }
    }

    ghost coords_of_law = { λ zs h. tuple-forth S.value S.of_value S.low S.high S.value_of_law 3 zs h };

    ghost with_law = { λ p i s j _ _ l. tuple-with S.value S.zero (p.x ∷ p.y ∷ p.z ∷ []) i s j l };

    ghost same_law = { λ p q. (triple-eq S.eq S.value (λ a b. S.eq_law a b S.exact_law) p.x p.y p.z q.x q.y q.z).0 };

    ghost eq_law = { λ p q _ _. triple-eq S.eq S.value (λ a b. S.eq_law a b S.exact_law) p.x p.y p.z q.x q.y q.z };
}
