//! Arrays of any length as points.

ghost use Rattle.std.specs.Prelude.{map, slice_set};
ghost use Rattle.rstar_base.specs.Points.{list_coord};
ghost use Rattle.rstar_base.specs.laws.PointLemmas.{array-with, array-eq, array-same, array-long, array-forth};

use crate::places::place_in;
use crate::point::{Point, RTreeNum};

impl<S: RTreeNum, const N: usize> Point for [S; N] {
    type Scalar = S;

    const DIMENSIONS: usize = N;

    ghost DIMENSIONS = { N };

    ghost coord = { λ p i. list_coord S.value S.zero p i };

    ghost of_coords = { λ zs. map S.of_value zs };

    ghost with = { λ p i s. slice_set p i s };

    fn generate<F: FnMut(usize) -> S>(generator: F) -> [S; N] {
        std::array::from_fn(generator)
    }

    fn nth(&self, index: usize) -> S {
        self[index]
    }

    fn nth_mut(&mut self, index: usize) -> &mut S {
        place_in(self, index)
    }

    ghost coords_of_law = { λ zs h. array-forth S.value S.of_value S.low S.high S.value_of_law S.zero N zs h.long
        h.ranged };

    ghost with_law = { λ p i s j h l _. array-with S.value S.zero p i s j (rw (array-long S.of_value _ N p h) l) };

    ghost same_law = { λ p q. array-same S.eq S.value (λ a b. S.eq_law a b S.exact_law) S.zero N p q };

    ghost eq_law = { λ p q h k. array-eq S.eq S.value (λ a b. S.eq_law a b S.exact_law) S.zero N p q
        (array-long S.of_value _ N _ h) (array-long S.of_value _ N _ k) };
}
