//! Visits that write payloads.

ghost use Rattle.std.specs.Prelude.{◌≡◌, ◌≤◌, if◌then◌else◌, map};
ghost use Rattle.rstar.specs.Nodes.{elements_of, IsWhole};
ghost use Rattle.rstar.specs.Trees.{elements_in, HasSameOutline, IsWholeTree};

use rstar::algorithm::selection_functions::SelectInEnvelopeFuncIntersecting;
use rstar::iterators::select_nodes_mut;
use rstar::node::ParentNode;
use rstar::primitives::GeomWithData;
use rstar::{DefaultParams, Envelope, RTree, RTreeObject, RTreeParams};
use std::ops::ControlFlow;

/// Sets the number of each element that an envelope intersects to 0, and changes nothing else.
pub fn clear<R: RTreeObject>(tree: &mut RTree<GeomWithData<R, u64>>, area: R::Envelope)
    requires whole { IsWholeTree R.Envelope.boxes ⟦<GeomWithData<R, u64> as RTreeObject>⟧.object
        ⟦<DefaultParams as RTreeParams>⟧.MAX_SIZE tree.old }
    ensures cleared { elements_in tree.new
        ≡ map (λ one. if R.Envelope.boxes.intersects area (⟦<GeomWithData<R, u64> as RTreeObject>⟧.object.box_of one)
        then (one.0, 0) else one) (elements_in tree.old) }
    ensures outline { HasSameOutline tree.old tree.new }
    ensures whole { IsWholeTree R.Envelope.boxes ⟦<GeomWithData<R, u64> as RTreeObject>⟧.object
        ⟦<DefaultParams as RTreeParams>⟧.MAX_SIZE tree.new }
{
    let _went_on: ControlFlow<()> = tree.locate_in_envelope_intersecting_int_mut(
        area,
        |one: &mut GeomWithData<R, u64>| {
            one.data = 0;
            ControlFlow::Continue(())
        },
    );
}

/// The same below a root that no tree holds.
fn clear_below<R: RTreeObject>(root: &mut ParentNode<GeomWithData<R, u64>>, area: R::Envelope)
    requires { IsWhole R.Envelope.boxes ⟦<GeomWithData<R, u64> as RTreeObject>⟧.object root.old }
    ensures cleared { elements_of root.new
        ≡ map (λ one. if R.Envelope.boxes.intersects area (⟦<GeomWithData<R, u64> as RTreeObject>⟧.object.box_of one)
        then (one.0, 0) else one) (elements_of root.old) }
    ensures whole { IsWhole R.Envelope.boxes ⟦<GeomWithData<R, u64> as RTreeObject>⟧.object root.new }
{
    let func = SelectInEnvelopeFuncIntersecting::new(area);
    let _went_on: ControlFlow<()> = select_nodes_mut(
        root,
        &func,
        &mut |one: &mut GeomWithData<R, u64>| {
            one.data = 0;
            ControlFlow::Continue(())
        },
    );
}

#[cfg(test)]
mod tests {
    use super::*;
    use crate::scenarios::{Outlined, fences, fences_of, inserted, let_go, let_root_go};
    use rstar::AABB;
    use rstar::algorithm::bulk_load::{bulk_load_sequential, none_empty};
    use rstar::algorithm::selection_functions::SelectAllFunc;
    use rstar::envelope::copied_envelope;
    use rstar::iterators::select_nodes;
    use rstar::object::{PointDistance, PointOf};
    use std::alloc::Global;

    /// An element with a number.
    type Numbered<R> = GeomWithData<R, u64>;

    /// The sum of the numbers of the elements below a root, clamped to the greatest `u64`.
    fn sum<R: RTreeObject>(root: &ParentNode<Numbered<R>>) -> u64 {
        let mut sum = 0u64;
        let _end: ControlFlow<()> = select_nodes(
            root,
            &SelectAllFunc,
            &mut |one: &Numbered<R>| {
                sum = sum.saturating_add(one.data);
                ControlFlow::Continue(())
            },
        );
        sum
    }

    /// The break of a visit that adds to each number, 0 where none breaks, and the sums of the numbers after
    /// each of five visits: that one, three that add 1 inside an envelope, to what it intersects and at a
    /// point, and one that clears what an envelope intersects.
    fn visited<R: PointDistance + Copy>(
        alloc: Global,
        elements: &[Numbered<R>],
        more: u64,
        breaks: bool,
        area: &R::Envelope,
        point: PointOf<R>,
        cleared: R::Envelope,
    ) -> (u64, [u64; 5]) {
        let mut tree = inserted::<Numbered<R>, DefaultParams>(alloc, elements);
        let answer = tree.locate_with_selection_function_int_mut(
            SelectAllFunc,
            |one: &mut Numbered<R>| {
                one.data = one.data.wrapping_add(more);
                if breaks {
                    ControlFlow::Break(one.data)
                } else {
                    ControlFlow::Continue(())
                }
            },
        );
        let first = sum(tree.root());
        let add_one = |one: &mut Numbered<R>| {
            one.data = one.data.wrapping_add(1);
            ControlFlow::<()>::Continue(())
        };
        tree.locate_in_envelope_int_mut(copied_envelope(area), add_one);
        let second = sum(tree.root());
        tree.locate_in_envelope_intersecting_int_mut(copied_envelope(area), add_one);
        let third = sum(tree.root());
        tree.locate_all_at_point_int_mut(point, add_one);
        let fourth = sum(tree.root());
        clear(&mut tree, cleared);
        let last = sum(tree.root());
        let_go(tree);
        (
            answer.break_value().unwrap_or(0),
            [first, second, third, fourth, last],
        )
    }

    /// The sums of the numbers of a bulk load before and after a clearing below its root; `None` where the
    /// load is refused.
    fn cleared_below<R: RTreeObject>(
        elements: Vec<Numbered<R>>,
        area: R::Envelope,
    ) -> Option<(u64, u64)>
        requires { 2 ≤ R.Envelope.Point.DIMENSIONS }
    {
        if elements.is_empty() || !none_empty(&elements) {
            return None;
        }
        match bulk_load_sequential::<Numbered<R>, DefaultParams>(elements) {
            Ok(mut root) => {
                let before = sum(&root);
                clear_below(&mut root, area);
                let after = sum(&root);
                let_root_go(root);
                Some((before, after))
            }
            Err(_) => None,
        }
    }

    // Ten fences in a row, numbered from 1; a box that touches the first three.
    #[test]
    fn fences_below_a_root_are_cleared(rt: HostRuntime) {
        let area = AABB::from_corners([0, 0], [20, 3]);
        assert!(rt; cleared_below(fences(rt.alloc(), 10, 5, 1), area) == Some((55, 49)));
    }

    /// The corners of a box.
    type Corners = ([i64; 2], [i64; 2]);

    /// Fences, what the first visit adds and whether it breaks, the box of the visits, the box of the clearing,
    /// the least and the greatest break, and the five sums.
    type Row = (
        &'static [Outlined],
        (u64, bool),
        Corners,
        Corners,
        (u64, u64),
        [u64; 5],
    );

    // The numbers 1, 2 and 3 in one place, inside a box, each changed, or one until a break; and one fence, and two. A box
    // that contains none of them, and touches the first, a point inside that, and the point at its corner, where it is
    // cleared, as by that box.
    #[test]
    fn visits_write_what_they_select_until_a_break(rt: HostRuntime) {
        const THREE: [Outlined; 3] = [
            (1, [0, 0], [2, 2]),
            (2, [0, 0], [2, 2]),
            (3, [0, 0], [2, 2]),
        ];
        const ONE: [Outlined; 1] = [(7, [0, 0], [2, 2])];
        const TWO: [Outlined; 2] = [(7, [0, 0], [2, 2]), (5, [3, 3], [4, 4])];
        const WIDE: Corners = ([0, 0], [2, 2]);
        const AREA: Corners = ([0, 0], [1, 1]);
        const CORNER: Corners = ([2, 2], [2, 2]);
        const ROWS: [Row; 5] = [
            (
                &THREE,
                (10, false),
                WIDE,
                CORNER,
                (0, 0),
                [36, 39, 42, 45, 0],
            ),
            (
                &THREE,
                (10, true),
                AREA,
                CORNER,
                (11, 13),
                [16, 16, 19, 22, 0],
            ),
            (&ONE, (0, false), AREA, CORNER, (0, 0), [7, 7, 8, 9, 0]),
            (
                &TWO,
                (10, false),
                AREA,
                CORNER,
                (0, 0),
                [32, 32, 33, 34, 15],
            ),
            (&TWO, (10, false), AREA, AREA, (0, 0), [32, 32, 33, 34, 15]),
        ];
        for row in 0..ROWS.len() {
            let &(list, (more, breaks), area, cleared, (least, most), sums) = &ROWS[row];
            let fences = fences_of(rt.alloc(), list);
            let area = AABB::from_corners(area.0, area.1);
            let cleared = AABB::from_corners(cleared.0, cleared.1);
            let (number, own) = visited(rt.alloc(), &fences, more, breaks, &area, [1, 1], cleared);
            assert!(rt;
                least <= number && number <= most && own == sums,
                "row {row}"
            );
        }
    }
}
