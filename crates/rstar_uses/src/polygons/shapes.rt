//! Points in small polygons, and at the ends of the numbers.

use super::{Polygon, Polygons};
use std::alloc::Global;

/// A point, and the numbers of the polygons that contain it.
pub(super) type Question = ([i64; 2], &'static [u64]);

/// Polygons with these corners, numbered from 1 on. `None` where memory is refused, or one has no corner.
fn numbered(alloc: Global, shapes: &[&[[i64; 2]]]) -> Option<Polygons> {
    let mut polygons = Polygons::new(alloc);
    let mut number = 0u64;
    for shape in shapes {
        number = number.saturating_add(1);
        let corners = shape.to_vec(alloc).ok()?;
        polygons.add(Polygon::new(number, corners)?).ok()?;
    }
    Some(polygons)
}

/// Whether the polygons that contain a point are just those with these numbers.
pub(super) fn tell(alloc: Global, shapes: &[&[[i64; 2]]], question: &Question) -> bool {
    let (point, numbers) = *question;
    let Some(polygons) = numbered(alloc, shapes) else {
        return false;
    };
    match polygons.at(alloc, point) {
        Ok(found) => {
            (polygons.len() == shapes.len())
                & (found.len() == numbers.len())
                & found
                    .iter()
                    .all(|polygon| numbers.contains(&polygon.number()))
        }
        Err(_) => false,
    }
}

// A square, walked both ways.
const SQUARE: [[i64; 2]; 4] = [[0, 0], [8, 0], [8, 8], [0, 8]];

const TURNED: [[i64; 2]; 4] = [[8, 8], [8, 0], [0, 0], [0, 8]];
// A square with a notch from above, and two teeth with a level edge between them.
const NOTCHED: [[i64; 2]; 5] = [[0, 0], [8, 0], [8, 8], [4, 2], [0, 8]];

const TEETH: [[i64; 2]; 8] = [
    [0, 0],
    [8, 0],
    [8, 6],
    [6, 6],
    [6, 3],
    [2, 3],
    [2, 6],
    [0, 6],
];
// A hole, walked to and back along one line.
const HOLED: [[i64; 2]; 10] = [
    [0, 0],
    [9, 0],
    [9, 9],
    [0, 9],
    [0, 0],
    [3, 3],
    [3, 6],
    [6, 6],
    [6, 3],
    [3, 3],
];
// Lines that cross themselves: the middle of the star is outside.
const CROSSED: [[i64; 2]; 4] = [[0, 0], [6, 6], [6, 0], [0, 6]];

const STAR: [[i64; 2]; 5] = [[5, -1], [8, 10], [0, 3], [10, 3], [2, 10]];
// One corner, a line, a flat triangle, and equal corners one after the other.
const PLACE: [[i64; 2]; 1] = [[4, 4]];

const LINE: [[i64; 2]; 2] = [[0, 0], [8, 4]];

const FLAT: [[i64; 2]; 3] = [[0, 0], [6, 6], [3, 3]];

const DOUBLED: [[i64; 2]; 5] = [[1, 1], [1, 1], [7, 1], [7, 1], [7, 7]];
// All places, and those below a line from one end of the numbers to the other, which passes (0, 0) by half a step.
const ALL: [[i64; 2]; 4] = [
    [i64::MIN, i64::MIN],
    [i64::MAX, i64::MIN],
    [i64::MAX, i64::MAX],
    [i64::MIN, i64::MAX],
];

const BELOW: [[i64; 2]; 3] = [
    [i64::MIN, i64::MIN],
    [i64::MAX, i64::MIN],
    [i64::MAX, i64::MAX - 1],
];

const SHAPES: [&'static [[i64; 2]]; 13] = [
    &SQUARE, &TURNED, &NOTCHED, &TEETH, &HOLED, &CROSSED, &STAR, &PLACE, &LINE, &FLAT, &DOUBLED,
    &ALL, &BELOW,
];

// `examples/coast/test_coast.py` compares the answers with exact fractions.
#[test]
fn points_in_shapes(rt: HostRuntime) {
    const QUESTIONS: [Question; 37] = [
        ([0, 0], &[1, 2, 3, 4, 5, 6, 9, 10, 12]),
        ([4, 0], &[1, 2, 3, 4, 5, 12, 13]),
        ([8, 8], &[1, 2, 3, 5, 12]),
        ([8, 3], &[1, 2, 3, 4, 5, 7, 12, 13]),
        ([4, 4], &[1, 2, 6, 8, 10, 11, 12]),
        ([4, 2], &[1, 2, 3, 4, 5, 6, 9, 11, 12, 13]),
        ([4, 3], &[1, 2, 4, 5, 6, 7, 11, 12, 13]),
        ([2, 3], &[1, 2, 3, 4, 5, 6, 7, 12]),
        ([3, 3], &[1, 2, 3, 4, 5, 6, 7, 10, 11, 12]),
        ([5, 5], &[1, 2, 6, 10, 11, 12]),
        ([1, 6], &[1, 2, 3, 4, 5, 12]),
        ([7, 6], &[1, 2, 3, 4, 5, 11, 12, 13]),
        ([6, 5], &[1, 2, 3, 4, 5, 6, 11, 12, 13]),
        ([3, 6], &[1, 2, 5, 12]),
        ([2, 2], &[1, 2, 3, 4, 5, 6, 10, 11, 12]),
        ([1, 1], &[1, 2, 3, 4, 5, 6, 10, 11, 12]),
        ([3, 1], &[1, 2, 3, 4, 5, 11, 12, 13]),
        ([5, 4], &[1, 2, 6, 11, 12, 13]),
        ([5, -1], &[7, 12, 13]),
        ([9, 9], &[5, 12]),
        ([-1, 0], &[12]),
        ([-1, 3], &[12]),
        ([9, 3], &[5, 7, 12, 13]),
        ([10, 3], &[7, 12, 13]),
        ([6, 6], &[1, 2, 4, 5, 6, 10, 11, 12]),
        ([7, 7], &[1, 2, 5, 7, 11, 12]),
        ([0, -1], &[12, 13]),
        ([-1, -1], &[12]),
        ([i64::MIN, i64::MIN], &[12, 13]),
        ([i64::MIN, 0], &[12]),
        ([i64::MAX, 0], &[12, 13]),
        ([i64::MAX, i64::MAX], &[12]),
        ([i64::MAX, i64::MAX - 1], &[12, 13]),
        ([i64::MAX - 1, i64::MAX - 2], &[12, 13]),
        ([i64::MAX - 1, i64::MAX - 3], &[12, 13]),
        ([i64::MIN + 1, i64::MIN], &[12, 13]),
        ([i64::MIN + 1, i64::MIN + 1], &[12]),
    ];
    for question in &QUESTIONS {
        assert!(rt; tell(rt.alloc(), &SHAPES, question));
    }
}
