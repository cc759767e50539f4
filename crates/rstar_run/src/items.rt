//! Items: rectangles with IDs.

ghost use Rattle.std.specs.Prelude.{◌≡◌, false};
ghost use Rattle.rstar_run.specs.Items.{box_between, item_of, questions};

use rstar::AABB;
use rstar::primitives::{GeomWithData, Rectangle};

/// A rectangle with its ID.
pub type Item = GeomWithData<Rectangle<[i64; 2]>, u64>;

/// Two opposite corners of a box, as a line spells them.
#[derive(Clone, Copy, Debug, PartialEq, Eq)]
pub struct Corners {
    pub one: [i64; 2],
    pub other: [i64; 2],
}

/// The box between two corners.
pub fn box_between(corners: Corners) -> AABB<[i64; 2]>
    ensures { result ≡ box_between corners }
{
    AABB::from_corners(corners.one, corners.other)
}

/// The rectangle between two corners, with an ID.
pub fn item_of(id: u64, corners: Corners) -> Item
    ensures is { result ≡ item_of id corners }
    ensures filled { questions.is_empty (questions.box_of result) ≡ false }
{
    Item::new(Rectangle::from_corners(corners.one, corners.other), id)
}
