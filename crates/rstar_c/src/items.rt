//! Rectangles with IDs, as C writes them and as the tree holds them.

ghost use Rattle.std.specs.Prelude.{◌≡◌, false};
ghost use Rattle.rstar_base.specs.Boxes.{is_empty_box};
ghost use Rattle.rstar_c.specs.Items.{box_between, box_of, corners_of, item_of};

use rstar::RTreeParams;
use rstar_base::AABB;
use rstar_base::primitives::{GeomWithData, Rectangle};

/// Two opposite corners of a box, in any order.
#[repr(C)]
#[derive(Clone, Copy)]
pub struct Corners {
    pub one: [i64; 2],
    pub other: [i64; 2],
}

/// A point.
#[repr(C)]
#[derive(Clone, Copy)]
pub struct Place {
    pub at: [i64; 2],
}

/// A rectangle with its ID.
pub(crate) type Item = GeomWithData<Rectangle<[i64; 2]>, u64>;

/// The node sizes of the library. They load and answer faster than rstar's default.
pub(crate) struct NodeSizes;

impl RTreeParams for NodeSizes {
    ghost use Rattle.std.proofs.Common.{arith};

    ghost MIN_SIZE = { 5 };

    ghost MAX_SIZE = { 12 };

    ghost REINSERTION_COUNT = { 3 };

    const MIN_SIZE: usize = 5;

    const MAX_SIZE: usize = 12;

    const REINSERTION_COUNT: usize = 3;

    ghost max_at_least_four = { Prim.omega arith };

    ghost max_fits = { Prim.omega arith };

    ghost min_positive = { Prim.omega arith };

    ghost min_at_most_half = { Prim.omega arith };

    ghost reinsertion_leaves = { Prim.omega arith };
}

/// The rectangle between two corners, with an ID.
pub(crate) fn item(id: u64, corners: &Corners) -> Item
    ensures is { result ≡ item_of id corners.now }
    ensures filled { is_empty_box (box_of result) ≡ false }
{
    Item::new(Rectangle::from_corners(corners.one, corners.other), id)
}

/// The box between two corners.
pub(crate) fn between(corners: &Corners) -> AABB<[i64; 2]>
    ensures { result ≡ box_between corners.now }
{
    AABB::from_corners(corners.one, corners.other)
}

/// The corners of an item, the lower one first.
pub(crate) fn corners_of(item: &Item) -> Corners
    ensures { result ≡ corners_of item.now }
{
    let (lower, upper) = (item.geom().lower(), item.geom().upper());
    Corners {
        one: [lower[0], lower[1]],
        other: [upper[0], upper[1]],
    }
}
