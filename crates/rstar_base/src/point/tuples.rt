//! Tuples of one scalar type as points.

ghost use Rattle.std.specs.Prelude.{[], ◌∷◌, pos, refl, slice_index_or};
ghost use Rattle.rstar_base.specs.Points.{list_coord, after_write};
ghost use Rattle.rstar_base.specs.laws.TupleLemmas.{tuple-forth, tuple-with, tuple-eq};

use crate::point::{Point, RTreeNum};

impl<S: RTreeNum> Point for (S,) {
    type Scalar = S;

    const DIMENSIONS: usize = 1;

    ghost DIMENSIONS = { 1 };

    ghost coord = { λ p i. list_coord S.value S.zero (p.0 ∷ []) i };

    ghost of_coords = { λ zs. record { 0 = S.of_value (slice_index_or zs 0 (pos 0)) } };

    ghost with = { λ p i s. record { 0 = after_write i s 0 p.0 } };

    fn generate<F: FnMut(usize) -> S>(mut generator: F) -> (S,) {
        let a = generator(0);
        (a,)
    }

    fn nth(&self, index: usize) -> S {
        match index {
            0 => self.0,
            _ => unreachable!(),
        }
    }

    fn nth_mut(&mut self, index: usize) -> &mut S {
        match index {
            0 => &mut self.0,
            _ => unreachable!(),
        }
    }

    ghost coords_of_law = { λ zs h. tuple-forth S.value S.of_value S.low S.high S.value_of_law 1 zs h };

    ghost with_law = { λ p i s j _ _ l. tuple-with S.value S.zero (p.0 ∷ []) i s j l };

    ghost same_law = { λ p q. (tuple-eq S.eq S.value (λ a b. S.eq_law a b S.exact_law) p.0 q.0 ([]) ([]) refl).0 };

    ghost eq_law = { λ p q _ _. tuple-eq S.eq S.value (λ a b. S.eq_law a b S.exact_law) p.0 q.0 ([]) ([]) refl };
}

impl<S: RTreeNum> Point for (S, S) {
    type Scalar = S;

    const DIMENSIONS: usize = 2;

    ghost DIMENSIONS = { 2 };

    ghost coord = { λ p i. list_coord S.value S.zero (p.0 ∷ p.1 ∷ []) i };

    ghost of_coords = { λ zs. (S.of_value (slice_index_or zs 0 (pos 0)), S.of_value (slice_index_or zs 1 (pos 0))) };

    ghost with = { λ p i s. (after_write i s 0 p.0, after_write i s 1 p.1) };

    fn generate<F: FnMut(usize) -> S>(mut generator: F) -> (S, S) {
        let x = generator(0);
        let y = generator(1);
        (x, y)
    }

    fn nth(&self, index: usize) -> S {
        match index {
            0 => self.0,
            1 => self.1,
            _ => unreachable!(),
        }
    }

    fn nth_mut(&mut self, index: usize) -> &mut S {
        match index {
            0 => &mut self.0,
            1 => &mut self.1,
            _ => unreachable!(),
        }
    }

    ghost coords_of_law = { λ zs h. tuple-forth S.value S.of_value S.low S.high S.value_of_law 2 zs h };

    ghost with_law = { λ p i s j _ _ l. tuple-with S.value S.zero (p.0 ∷ p.1 ∷ []) i s j l };

    ghost same_law = { λ p q.
        (tuple-eq S.eq S.value (λ a b. S.eq_law a b S.exact_law) p.0 q.0 (p.1 ∷ []) (q.1 ∷ []) refl).0 };

    ghost eq_law = { λ p q _ _. tuple-eq S.eq S.value (λ a b. S.eq_law a b S.exact_law) p.0 q.0 (p.1 ∷ []) (q.1 ∷ [])
        refl };
}

impl<S: RTreeNum> Point for (S, S, S) {
    type Scalar = S;

    const DIMENSIONS: usize = 3;

    ghost DIMENSIONS = { 3 };

    ghost coord = { λ p i. list_coord S.value S.zero (p.0 ∷ p.1 ∷ p.2 ∷ []) i };

    ghost of_coords = { λ zs. (
      S.of_value (slice_index_or zs 0 (pos 0)),
      S.of_value (slice_index_or zs 1 (pos 0)),
      S.of_value (slice_index_or zs 2 (pos 0)),
    ) };

    ghost with = { λ p i s. (after_write i s 0 p.0, after_write i s 1 p.1, after_write i s 2 p.2) };

    fn generate<F: FnMut(usize) -> S>(mut generator: F) -> (S, S, S) {
        let a = generator(0);
        let b = generator(1);
        let c = generator(2);
        (a, b, c)
    }

    fn nth(&self, index: usize) -> S {
        match index {
            0 => self.0,
            1 => self.1,
            2 => self.2,
            _ => unreachable!(),
        }
    }

    fn nth_mut(&mut self, index: usize) -> &mut S {
        match index {
            0 => &mut self.0,
            1 => &mut self.1,
            2 => &mut self.2,
            _ => unreachable!(),
        }
    }

    ghost coords_of_law = { λ zs h. tuple-forth S.value S.of_value S.low S.high S.value_of_law 3 zs h };

    ghost with_law = { λ p i s j _ _ l. tuple-with S.value S.zero (p.0 ∷ p.1 ∷ p.2 ∷ []) i s j l };

    ghost same_law = { λ p q.
        (tuple-eq S.eq S.value (λ a b. S.eq_law a b S.exact_law) p.0 q.0 (p.1 ∷ p.2 ∷ []) (q.1 ∷ q.2 ∷ []) refl).0 };

    ghost eq_law = { λ p q _ _. tuple-eq S.eq S.value (λ a b. S.eq_law a b S.exact_law) p.0 q.0 (p.1 ∷ p.2 ∷ [])
        (q.1 ∷ q.2 ∷ []) refl };
}

impl<S: RTreeNum> Point for (S, S, S, S) {
    type Scalar = S;

    const DIMENSIONS: usize = 4;

    ghost DIMENSIONS = { 4 };

    ghost coord = { λ p i. list_coord S.value S.zero (p.0 ∷ p.1 ∷ p.2 ∷ p.3 ∷ []) i };

    ghost of_coords = { λ zs. (
      S.of_value (slice_index_or zs 0 (pos 0)),
      S.of_value (slice_index_or zs 1 (pos 0)),
      S.of_value (slice_index_or zs 2 (pos 0)),
      S.of_value (slice_index_or zs 3 (pos 0)),
    ) };

    ghost with = { λ p i s.
        (after_write i s 0 p.0, after_write i s 1 p.1, after_write i s 2 p.2, after_write i s 3 p.3) };

    fn generate<F: FnMut(usize) -> S>(mut generator: F) -> (S, S, S, S) {
        let a = generator(0);
        let b = generator(1);
        let c = generator(2);
        let d = generator(3);
        (a, b, c, d)
    }

    fn nth(&self, index: usize) -> S {
        match index {
            0 => self.0,
            1 => self.1,
            2 => self.2,
            3 => self.3,
            _ => unreachable!(),
        }
    }

    fn nth_mut(&mut self, index: usize) -> &mut S {
        match index {
            0 => &mut self.0,
            1 => &mut self.1,
            2 => &mut self.2,
            3 => &mut self.3,
            _ => unreachable!(),
        }
    }

    ghost coords_of_law = { λ zs h. tuple-forth S.value S.of_value S.low S.high S.value_of_law 4 zs h };

    ghost with_law = { λ p i s j _ _ l. tuple-with S.value S.zero (p.0 ∷ p.1 ∷ p.2 ∷ p.3 ∷ []) i s j l };

    ghost same_law = { λ p q.
        (tuple-eq S.eq S.value (λ a b. S.eq_law a b S.exact_law) p.0 q.0 (p.1 ∷ p.2 ∷ p.3 ∷ []) (q.1 ∷ q.2 ∷ q.3 ∷ [])
        refl).0 };

    ghost eq_law = { λ p q _ _. tuple-eq S.eq S.value (λ a b. S.eq_law a b S.exact_law) p.0 q.0 (p.1 ∷ p.2 ∷ p.3 ∷ [])
        (q.1 ∷ q.2 ∷ q.3 ∷ []) refl };
}

impl<S: RTreeNum> Point for (S, S, S, S, S) {
    type Scalar = S;

    const DIMENSIONS: usize = 5;

    ghost DIMENSIONS = { 5 };

    ghost coord = { λ p i. list_coord S.value S.zero (p.0 ∷ p.1 ∷ p.2 ∷ p.3 ∷ p.4 ∷ []) i };

    ghost of_coords = { λ zs. (
      S.of_value (slice_index_or zs 0 (pos 0)),
      S.of_value (slice_index_or zs 1 (pos 0)),
      S.of_value (slice_index_or zs 2 (pos 0)),
      S.of_value (slice_index_or zs 3 (pos 0)),
      S.of_value (slice_index_or zs 4 (pos 0)),
    ) };

    ghost with = { λ p i s. (
      after_write i s 0 p.0,
      after_write i s 1 p.1,
      after_write i s 2 p.2,
      after_write i s 3 p.3,
      after_write i s 4 p.4,
    ) };

    fn generate<F: FnMut(usize) -> S>(mut generator: F) -> (S, S, S, S, S) {
        let a = generator(0);
        let b = generator(1);
        let c = generator(2);
        let d = generator(3);
        let e = generator(4);
        (a, b, c, d, e)
    }

    fn nth(&self, index: usize) -> S {
        match index {
            0 => self.0,
            1 => self.1,
            2 => self.2,
            3 => self.3,
            4 => self.4,
            _ => unreachable!(),
        }
    }

    fn nth_mut(&mut self, index: usize) -> &mut S {
        match index {
            0 => &mut self.0,
            1 => &mut self.1,
            2 => &mut self.2,
            3 => &mut self.3,
            4 => &mut self.4,
            _ => unreachable!(),
        }
    }

    ghost coords_of_law = { λ zs h. tuple-forth S.value S.of_value S.low S.high S.value_of_law 5 zs h };

    ghost with_law = { λ p i s j _ _ l. tuple-with S.value S.zero (p.0 ∷ p.1 ∷ p.2 ∷ p.3 ∷ p.4 ∷ []) i s j l };

    ghost same_law = { λ p q.
        (tuple-eq S.eq S.value (λ a b. S.eq_law a b S.exact_law) p.0 q.0 (p.1 ∷ p.2 ∷ p.3 ∷ p.4 ∷ [])
        (q.1 ∷ q.2 ∷ q.3 ∷ q.4 ∷ []) refl).0 };

    ghost eq_law = { λ p q _ _. tuple-eq S.eq S.value (λ a b. S.eq_law a b S.exact_law) p.0 q.0
        (p.1 ∷ p.2 ∷ p.3 ∷ p.4 ∷ []) (q.1 ∷ q.2 ∷ q.3 ∷ q.4 ∷ []) refl };
}

impl<S: RTreeNum> Point for (S, S, S, S, S, S) {
    type Scalar = S;

    const DIMENSIONS: usize = 6;

    ghost DIMENSIONS = { 6 };

    ghost coord = { λ p i. list_coord S.value S.zero (p.0 ∷ p.1 ∷ p.2 ∷ p.3 ∷ p.4 ∷ p.5 ∷ []) i };

    ghost of_coords = { λ zs. (
      S.of_value (slice_index_or zs 0 (pos 0)),
      S.of_value (slice_index_or zs 1 (pos 0)),
      S.of_value (slice_index_or zs 2 (pos 0)),
      S.of_value (slice_index_or zs 3 (pos 0)),
      S.of_value (slice_index_or zs 4 (pos 0)),
      S.of_value (slice_index_or zs 5 (pos 0)),
    ) };

    ghost with = { λ p i s. (
      after_write i s 0 p.0,
      after_write i s 1 p.1,
      after_write i s 2 p.2,
      after_write i s 3 p.3,
      after_write i s 4 p.4,
      after_write i s 5 p.5,
    ) };

    fn generate<F: FnMut(usize) -> S>(mut generator: F) -> (S, S, S, S, S, S) {
        let a = generator(0);
        let b = generator(1);
        let c = generator(2);
        let d = generator(3);
        let e = generator(4);
        let f = generator(5);
        (a, b, c, d, e, f)
    }

    fn nth(&self, index: usize) -> S {
        match index {
            0 => self.0,
            1 => self.1,
            2 => self.2,
            3 => self.3,
            4 => self.4,
            5 => self.5,
            _ => unreachable!(),
        }
    }

    fn nth_mut(&mut self, index: usize) -> &mut S {
        match index {
            0 => &mut self.0,
            1 => &mut self.1,
            2 => &mut self.2,
            3 => &mut self.3,
            4 => &mut self.4,
            5 => &mut self.5,
            _ => unreachable!(),
        }
    }

    ghost coords_of_law = { λ zs h. tuple-forth S.value S.of_value S.low S.high S.value_of_law 6 zs h };

    ghost with_law = { λ p i s j _ _ l. tuple-with S.value S.zero (p.0 ∷ p.1 ∷ p.2 ∷ p.3 ∷ p.4 ∷ p.5 ∷ []) i s j l };

    ghost same_law = { λ p q.
        (tuple-eq S.eq S.value (λ a b. S.eq_law a b S.exact_law) p.0 q.0 (p.1 ∷ p.2 ∷ p.3 ∷ p.4 ∷ p.5 ∷ [])
        (q.1 ∷ q.2 ∷ q.3 ∷ q.4 ∷ q.5 ∷ []) refl).0 };

    ghost eq_law = { λ p q _ _. tuple-eq S.eq S.value (λ a b. S.eq_law a b S.exact_law) p.0 q.0
        (p.1 ∷ p.2 ∷ p.3 ∷ p.4 ∷ p.5 ∷ []) (q.1 ∷ q.2 ∷ q.3 ∷ q.4 ∷ q.5 ∷ []) refl };
}

impl<S: RTreeNum> Point for (S, S, S, S, S, S, S) {
    type Scalar = S;

    const DIMENSIONS: usize = 7;

    ghost DIMENSIONS = { 7 };

    ghost coord = { λ p i. list_coord S.value S.zero (p.0 ∷ p.1 ∷ p.2 ∷ p.3 ∷ p.4 ∷ p.5 ∷ p.6 ∷ []) i };

    ghost of_coords = { λ zs. (
      S.of_value (slice_index_or zs 0 (pos 0)),
      S.of_value (slice_index_or zs 1 (pos 0)),
      S.of_value (slice_index_or zs 2 (pos 0)),
      S.of_value (slice_index_or zs 3 (pos 0)),
      S.of_value (slice_index_or zs 4 (pos 0)),
      S.of_value (slice_index_or zs 5 (pos 0)),
      S.of_value (slice_index_or zs 6 (pos 0)),
    ) };

    ghost with = { λ p i s. (
      after_write i s 0 p.0,
      after_write i s 1 p.1,
      after_write i s 2 p.2,
      after_write i s 3 p.3,
      after_write i s 4 p.4,
      after_write i s 5 p.5,
      after_write i s 6 p.6,
    ) };

    fn generate<F: FnMut(usize) -> S>(mut generator: F) -> (S, S, S, S, S, S, S) {
        let a = generator(0);
        let b = generator(1);
        let c = generator(2);
        let d = generator(3);
        let e = generator(4);
        let f = generator(5);
        let g = generator(6);
        (a, b, c, d, e, f, g)
    }

    fn nth(&self, index: usize) -> S {
        match index {
            0 => self.0,
            1 => self.1,
            2 => self.2,
            3 => self.3,
            4 => self.4,
            5 => self.5,
            6 => self.6,
            _ => unreachable!(),
        }
    }

    fn nth_mut(&mut self, index: usize) -> &mut S {
        match index {
            0 => &mut self.0,
            1 => &mut self.1,
            2 => &mut self.2,
            3 => &mut self.3,
            4 => &mut self.4,
            5 => &mut self.5,
            6 => &mut self.6,
            _ => unreachable!(),
        }
    }

    ghost coords_of_law = { λ zs h. tuple-forth S.value S.of_value S.low S.high S.value_of_law 7 zs h };

    ghost with_law = { λ p i s j _ _ l. tuple-with S.value S.zero (p.0 ∷ p.1 ∷ p.2 ∷ p.3 ∷ p.4 ∷ p.5 ∷ p.6 ∷ []) i s j
        l };

    ghost same_law = { λ p q.
        (tuple-eq S.eq S.value (λ a b. S.eq_law a b S.exact_law) p.0 q.0 (p.1 ∷ p.2 ∷ p.3 ∷ p.4 ∷ p.5 ∷ p.6 ∷ [])
        (q.1 ∷ q.2 ∷ q.3 ∷ q.4 ∷ q.5 ∷ q.6 ∷ []) refl).0 };

    ghost eq_law = { λ p q _ _. tuple-eq S.eq S.value (λ a b. S.eq_law a b S.exact_law) p.0 q.0
        (p.1 ∷ p.2 ∷ p.3 ∷ p.4 ∷ p.5 ∷ p.6 ∷ []) (q.1 ∷ q.2 ∷ q.3 ∷ q.4 ∷ q.5 ∷ q.6 ∷ []) refl };
}

impl<S: RTreeNum> Point for (S, S, S, S, S, S, S, S) {
    type Scalar = S;

    const DIMENSIONS: usize = 8;

    ghost DIMENSIONS = { 8 };

    ghost coord = { λ p i. list_coord S.value S.zero (p.0 ∷ p.1 ∷ p.2 ∷ p.3 ∷ p.4 ∷ p.5 ∷ p.6 ∷ p.7 ∷ []) i };

    ghost of_coords = { λ zs. (
      S.of_value (slice_index_or zs 0 (pos 0)),
      S.of_value (slice_index_or zs 1 (pos 0)),
      S.of_value (slice_index_or zs 2 (pos 0)),
      S.of_value (slice_index_or zs 3 (pos 0)),
      S.of_value (slice_index_or zs 4 (pos 0)),
      S.of_value (slice_index_or zs 5 (pos 0)),
      S.of_value (slice_index_or zs 6 (pos 0)),
      S.of_value (slice_index_or zs 7 (pos 0)),
    ) };

    ghost with = { λ p i s. (
      after_write i s 0 p.0,
      after_write i s 1 p.1,
      after_write i s 2 p.2,
      after_write i s 3 p.3,
      after_write i s 4 p.4,
      after_write i s 5 p.5,
      after_write i s 6 p.6,
      after_write i s 7 p.7,
    ) };

    fn generate<F: FnMut(usize) -> S>(mut generator: F) -> (S, S, S, S, S, S, S, S) {
        let a = generator(0);
        let b = generator(1);
        let c = generator(2);
        let d = generator(3);
        let e = generator(4);
        let f = generator(5);
        let g = generator(6);
        let h = generator(7);
        (a, b, c, d, e, f, g, h)
    }

    fn nth(&self, index: usize) -> S {
        match index {
            0 => self.0,
            1 => self.1,
            2 => self.2,
            3 => self.3,
            4 => self.4,
            5 => self.5,
            6 => self.6,
            7 => self.7,
            _ => unreachable!(),
        }
    }

    fn nth_mut(&mut self, index: usize) -> &mut S {
        match index {
            0 => &mut self.0,
            1 => &mut self.1,
            2 => &mut self.2,
            3 => &mut self.3,
            4 => &mut self.4,
            5 => &mut self.5,
            6 => &mut self.6,
            7 => &mut self.7,
            _ => unreachable!(),
        }
    }

    ghost coords_of_law = { λ zs h. tuple-forth S.value S.of_value S.low S.high S.value_of_law 8 zs h };

    ghost with_law = { λ p i s j _ _ l. tuple-with S.value S.zero (p.0 ∷ p.1 ∷ p.2 ∷ p.3 ∷ p.4 ∷ p.5 ∷ p.6 ∷ p.7 ∷ []) i
        s j l };

    ghost same_law = { λ p q.
        (tuple-eq S.eq S.value (λ a b. S.eq_law a b S.exact_law) p.0 q.0 (p.1 ∷ p.2 ∷ p.3 ∷ p.4 ∷ p.5 ∷ p.6 ∷ p.7 ∷ [])
        (q.1 ∷ q.2 ∷ q.3 ∷ q.4 ∷ q.5 ∷ q.6 ∷ q.7 ∷ []) refl).0 };

    ghost eq_law = { λ p q _ _. tuple-eq S.eq S.value (λ a b. S.eq_law a b S.exact_law) p.0 q.0
        (p.1 ∷ p.2 ∷ p.3 ∷ p.4 ∷ p.5 ∷ p.6 ∷ p.7 ∷ []) (q.1 ∷ q.2 ∷ q.3 ∷ q.4 ∷ q.5 ∷ q.6 ∷ q.7 ∷ []) refl };
}

impl<S: RTreeNum> Point for (S, S, S, S, S, S, S, S, S) {
    type Scalar = S;

    const DIMENSIONS: usize = 9;

    ghost DIMENSIONS = { 9 };

    ghost coord = { λ p i. list_coord S.value S.zero (p.0 ∷ p.1 ∷ p.2 ∷ p.3 ∷ p.4 ∷ p.5 ∷ p.6 ∷ p.7 ∷ p.8 ∷ []) i };

    ghost of_coords = { λ zs. (
      S.of_value (slice_index_or zs 0 (pos 0)),
      S.of_value (slice_index_or zs 1 (pos 0)),
      S.of_value (slice_index_or zs 2 (pos 0)),
      S.of_value (slice_index_or zs 3 (pos 0)),
      S.of_value (slice_index_or zs 4 (pos 0)),
      S.of_value (slice_index_or zs 5 (pos 0)),
      S.of_value (slice_index_or zs 6 (pos 0)),
      S.of_value (slice_index_or zs 7 (pos 0)),
      S.of_value (slice_index_or zs 8 (pos 0)),
    ) };

    ghost with = { λ p i s. (
      after_write i s 0 p.0,
      after_write i s 1 p.1,
      after_write i s 2 p.2,
      after_write i s 3 p.3,
      after_write i s 4 p.4,
      after_write i s 5 p.5,
      after_write i s 6 p.6,
      after_write i s 7 p.7,
      after_write i s 8 p.8,
    ) };

    fn generate<F: FnMut(usize) -> S>(mut generator: F) -> (S, S, S, S, S, S, S, S, S) {
        let a = generator(0);
        let b = generator(1);
        let c = generator(2);
        let d = generator(3);
        let e = generator(4);
        let f = generator(5);
        let g = generator(6);
        let h = generator(7);
        let i = generator(8);
        (a, b, c, d, e, f, g, h, i)
    }

    fn nth(&self, index: usize) -> S {
        match index {
            0 => self.0,
            1 => self.1,
            2 => self.2,
            3 => self.3,
            4 => self.4,
            5 => self.5,
            6 => self.6,
            7 => self.7,
            8 => self.8,
            _ => unreachable!(),
        }
    }

    fn nth_mut(&mut self, index: usize) -> &mut S {
        match index {
            0 => &mut self.0,
            1 => &mut self.1,
            2 => &mut self.2,
            3 => &mut self.3,
            4 => &mut self.4,
            5 => &mut self.5,
            6 => &mut self.6,
            7 => &mut self.7,
            8 => &mut self.8,
            _ => unreachable!(),
        }
    }

    ghost coords_of_law = { λ zs h. tuple-forth S.value S.of_value S.low S.high S.value_of_law 9 zs h };

    ghost with_law = { λ p i s j _ _ l. tuple-with S.value S.zero
        (p.0 ∷ p.1 ∷ p.2 ∷ p.3 ∷ p.4 ∷ p.5 ∷ p.6 ∷ p.7 ∷ p.8 ∷ []) i s j l };

    ghost same_law = { λ p q.
        (tuple-eq S.eq S.value (λ a b. S.eq_law a b S.exact_law) p.0 q.0
        (p.1 ∷ p.2 ∷ p.3 ∷ p.4 ∷ p.5 ∷ p.6 ∷ p.7 ∷ p.8 ∷ []) (q.1 ∷ q.2 ∷ q.3 ∷ q.4 ∷ q.5 ∷ q.6 ∷ q.7 ∷ q.8 ∷ [])
        refl).0 };

    ghost eq_law = { λ p q _ _. tuple-eq S.eq S.value (λ a b. S.eq_law a b S.exact_law) p.0 q.0
        (p.1 ∷ p.2 ∷ p.3 ∷ p.4 ∷ p.5 ∷ p.6 ∷ p.7 ∷ p.8 ∷ []) (q.1 ∷ q.2 ∷ q.3 ∷ q.4 ∷ q.5 ∷ q.6 ∷ q.7 ∷ q.8 ∷ [])
        refl };
}

impl<S: RTreeNum> Point for (S, S, S, S, S, S, S, S, S, S) {
    type Scalar = S;

    const DIMENSIONS: usize = 10;

    ghost DIMENSIONS = { 10 };

    ghost coord = { λ p i. list_coord S.value S.zero (p.0 ∷ p.1 ∷ p.2 ∷ p.3 ∷ p.4 ∷ p.5 ∷ p.6 ∷ p.7 ∷ p.8 ∷ p.9 ∷ [])
        i };

    ghost of_coords = { λ zs. (
      S.of_value (slice_index_or zs 0 (pos 0)),
      S.of_value (slice_index_or zs 1 (pos 0)),
      S.of_value (slice_index_or zs 2 (pos 0)),
      S.of_value (slice_index_or zs 3 (pos 0)),
      S.of_value (slice_index_or zs 4 (pos 0)),
      S.of_value (slice_index_or zs 5 (pos 0)),
      S.of_value (slice_index_or zs 6 (pos 0)),
      S.of_value (slice_index_or zs 7 (pos 0)),
      S.of_value (slice_index_or zs 8 (pos 0)),
      S.of_value (slice_index_or zs 9 (pos 0)),
    ) };

    ghost with = { λ p i s. (
      after_write i s 0 p.0,
      after_write i s 1 p.1,
      after_write i s 2 p.2,
      after_write i s 3 p.3,
      after_write i s 4 p.4,
      after_write i s 5 p.5,
      after_write i s 6 p.6,
      after_write i s 7 p.7,
      after_write i s 8 p.8,
      after_write i s 9 p.9,
    ) };

    fn generate<F: FnMut(usize) -> S>(mut generator: F) -> (S, S, S, S, S, S, S, S, S, S) {
        let a = generator(0);
        let b = generator(1);
        let c = generator(2);
        let d = generator(3);
        let e = generator(4);
        let f = generator(5);
        let g = generator(6);
        let h = generator(7);
        let i = generator(8);
        let j = generator(9);
        (a, b, c, d, e, f, g, h, i, j)
    }

    fn nth(&self, index: usize) -> S {
        match index {
            0 => self.0,
            1 => self.1,
            2 => self.2,
            3 => self.3,
            4 => self.4,
            5 => self.5,
            6 => self.6,
            7 => self.7,
            8 => self.8,
            9 => self.9,
            _ => unreachable!(),
        }
    }

    fn nth_mut(&mut self, index: usize) -> &mut S {
        match index {
            0 => &mut self.0,
            1 => &mut self.1,
            2 => &mut self.2,
            3 => &mut self.3,
            4 => &mut self.4,
            5 => &mut self.5,
            6 => &mut self.6,
            7 => &mut self.7,
            8 => &mut self.8,
            9 => &mut self.9,
            _ => unreachable!(),
        }
    }

    ghost coords_of_law = { λ zs h. tuple-forth S.value S.of_value S.low S.high S.value_of_law 10 zs h };

    ghost with_law = { λ p i s j _ _ l. tuple-with S.value S.zero
        (p.0 ∷ p.1 ∷ p.2 ∷ p.3 ∷ p.4 ∷ p.5 ∷ p.6 ∷ p.7 ∷ p.8 ∷ p.9 ∷ []) i s j l };

    ghost same_law = { λ p q.
        (tuple-eq S.eq S.value (λ a b. S.eq_law a b S.exact_law) p.0 q.0
        (p.1 ∷ p.2 ∷ p.3 ∷ p.4 ∷ p.5 ∷ p.6 ∷ p.7 ∷ p.8 ∷ p.9 ∷ [])
        (q.1 ∷ q.2 ∷ q.3 ∷ q.4 ∷ q.5 ∷ q.6 ∷ q.7 ∷ q.8 ∷ q.9 ∷ []) refl).0 };

    ghost eq_law = { λ p q _ _. tuple-eq S.eq S.value (λ a b. S.eq_law a b S.exact_law) p.0 q.0
        (p.1 ∷ p.2 ∷ p.3 ∷ p.4 ∷ p.5 ∷ p.6 ∷ p.7 ∷ p.8 ∷ p.9 ∷ [])
        (q.1 ∷ q.2 ∷ q.3 ∷ q.4 ∷ q.5 ∷ q.6 ∷ q.7 ∷ q.8 ∷ q.9 ∷ []) refl };
}
