//! An envelope type of one's own: an interval with a level.

ghost use Rattle.std.specs.Prelude.{◌≡◌, pos, min, unsigned_abs};
ghost use Rattle.std.specs.Int.{int_min, int_max};
ghost use Rattle.rstar_base_vectors.specs.Stretches.{gap_between, length_between, nearer_end, held_square};

use num_traits::Zero;
use rstar_base::point::{greatest, least, not_above};
use rstar_base::{Envelope, Point, RTreeNum};
use std::marker::Model;

/// An interval with the greatest level of the intervals merged into it.
#[derive(Clone, Copy, Debug, PartialEq, Drop)]
pub struct Stretch {
    from: i64,
    to: i64,
    level: u8,
}

impl Model for Stretch {
    ghost use Rattle.std.specs.Prelude.{ℤ, ℕ, refl};
    ghost use Rattle.rstar_base_vectors.specs.Stretches.{IsStretch};

    ghost Value = { ℤ × ℤ × ℕ };

    ghost view = { λ s. (s.from, s.to, s.level) };

    ghost invariant = { λ s. IsStretch (s.from, s.to, s.level) };

    ghost inverse = { λ v. record { from = v.0; to = v.1; level = v.2 } };

    ghost inverse_ok = { λ a h. refl };
}

impl Stretch {
    /// The interval between two ends, in either order.
    pub fn new(a: i64, b: i64, level: u8) -> Self
        ensures { result ≡ (int_min a b, int_max a b, level) }
    {
        Stretch {
            from: least(a, b),
            to: greatest(a, b),
            level,
        }
    }

    /// The greatest level merged; 0 for the empty interval.
    pub fn level(&self) -> u8
        ensures { result ≡ self.now.2 }
    {
        self.level
    }
}

/// The length from `from` to `to`, clamped; 0 where `to` is below `from`.
fn length<S: RTreeNum>(from: S, to: S) -> S
    ensures { S.value result ≡ pos (min (length_between (S.value from) (S.value to)) (unsigned_abs S.high)) }
{
    if not_above(from, to) {
        to.clamped_sub(from)
    } else {
        S::zero()
    }
}

/// The distance from `at` to an interval, clamped.
fn gap<S: RTreeNum>(from: S, to: S, at: S) -> S
    ensures { S.value result ≡ pos (min (gap_between (S.value from) (S.value to) (S.value at)) (unsigned_abs S.high)) }
{
    greatest(length(at, from), length(to, at))
}

/// The squared distance from `at` to an interval, clamped.
fn squared_gap<S: RTreeNum>(from: S, to: S, at: S) -> S
    ensures { S.value result
        ≡ pos (held_square (unsigned_abs S.high) (gap_between (S.value from) (S.value to) (S.value at))) }
{
    let gap = gap(from, to, at);
    gap.clamped_mul(gap)
}

/// The squared distance from `at` to the nearer end, clamped.
pub(crate) fn squared_nearer_end<S: RTreeNum>(from: S, to: S, at: S) -> S
    ensures { S.value result
        ≡ pos (held_square (unsigned_abs S.high) (nearer_end (S.value from) (S.value to) (S.value at))) }
{
    let end = least(gap(from, from, at), gap(to, to, at));
    end.clamped_mul(end)
}

impl Envelope for Stretch {
    ghost use Rattle.rstar_base_vectors.specs.Stretches.{stretch_data};
    ghost use Rattle.rstar_base_vectors.specs.laws.StretchLaws.{stretch_laws, stretch_eq};

    type Point = [i64; 1];

    ghost boxes = { stretch_data };

    fn new_empty() -> Self {
        Stretch {
            from: i64::MAX,
            to: i64::MIN,
            level: 0,
        }
    }

    fn is_empty(&self) -> bool {
        self.to < self.from
    }

    fn contains_point(&self, point: &[i64; 1]) -> bool {
        self.from <= point.nth(0) && point.nth(0) <= self.to
    }

    fn contains_envelope(&self, other: &Self) -> bool {
        self.from <= other.from && other.to <= self.to
    }

    fn merge(&mut self, other: &Self) {
        *self = self.merged(other);
    }

    fn merged(&self, other: &Self) -> Self {
        Stretch {
            from: least(self.from, other.from),
            to: greatest(self.to, other.to),
            level: self.level.max(other.level),
        }
    }

    fn intersects(&self, other: &Self) -> bool {
        self.from <= other.to && other.from <= self.to
    }

    fn distance_2(&self, point: &[i64; 1]) -> i64 {
        squared_gap(self.from, self.to, point.nth(0))
    }

    fn min_max_dist_2(&self, point: &[i64; 1]) -> i64 {
        squared_nearer_end(self.from, self.to, point.nth(0))
    }

    fn area(&self) -> i64 {
        length(self.from, self.to)
    }

    fn intersection_area(&self, other: &Self) -> i64 {
        length(greatest(self.from, other.from), least(self.to, other.to))
    }

    fn center(&self) -> [i64; 1] {
        [self.from.half_sum(self.to)]
    }

    fn perimeter_value(&self) -> i64 {
        length(self.from, self.to)
    }

    fn axis_key(&self, _axis: usize) -> i64 {
        self.from
    }

    ghost envelope_laws = { stretch_laws };

    ghost eq_law = { λ a b _ _. stretch_eq a b };
}

#[cfg(test)]
mod tests {
    use super::*;
    use rstar_base::envelope::copied_envelope;

    // A stretch's ends, its distance and its min-max distance from 7, its center and its length.
    #[test]
    fn distances_and_measures(rt: HostRuntime) {
        const ROWS: [(i64, i64, i64, i64, i64, i64); 3] = [
            (4, 1, 9, 9, 2, 3),
            (10, 12, 9, 9, 11, 2),
            (1, 12, 0, 25, 6, 11),
        ];
        for row in 0..ROWS.len() {
            let &(a, b, distance, min_max, center, length) = &ROWS[row];
            let stretch = Stretch::new(a, b, 0);
            assert!(rt;
                stretch.distance_2(&[7]) == distance
                    && stretch.min_max_dist_2(&[7]) == min_max
                    && stretch.center() == [center]
                    && stretch.area() == length,
                "row {row}"
            );
        }
    }

    // The empty stretch is the unit of merges.
    #[test]
    fn stretches_merge_with_their_levels(rt: HostRuntime) {
        let low = Stretch::new(4, 1, 7);
        let high = Stretch::new(10, 12, 3);
        let both = low.merged(&high);
        assert!(rt;
            both == Stretch::new(1, 12, 7)
                && both.level() == 7
                && both != Stretch::new(1, 12, 3)
                && both.contains_envelope(&high)
                && !low.intersects(&high)
                && low.intersection_area(&both) == 3
                && both.axis_key(0) == 1
        );
        let empty = Stretch::new_empty();
        let mut all = copied_envelope(&empty);
        all.merge(&Stretch::new(i64::MIN, i64::MAX, 1));
        assert!(rt;
            empty.is_empty()
                && empty.area() == 0
                && all == Stretch::new(i64::MIN, i64::MAX, 1)
                && all.area() == i64::MAX
        );
    }
}
