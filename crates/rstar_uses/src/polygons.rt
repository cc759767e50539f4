//! Fences with corners: polygons, and which of them contain a point.
//!
//! A tree finds polygons by their boxes. Those whose box contains the point are walked edge by edge. All is exact for
//! all coordinates: a difference fits in a `u64`, and a product of two in a `u128`.

ghost use Rattle.std.specs.Prelude.{◌≡◌, ◌∷◌, ◌↔◌, ◌*◌, ◌-ℤ◌, ◌≤ℤ◌, ◌<ℤ◌, ◌<◌, ◌&&◌, [], map, filter, pos, int_lt, unsigned_abs, length, MatchOption, IsSome, IfOk, IfErr, OnOk, OnErr};
ghost use Rattle.std.specs.List.Sorted.{IsPermutation};
ghost use Rattle.rstar.specs.Boxes.{box_contains_point};
ghost use Rattle.rstar.specs.Points.{table};
ghost use Rattle.rstar.specs.Segments.{coordinate};
ghost use Rattle.rstar.specs.Trees.{elements_in, IsWholeTree};
ghost use Rattle.rstar_base.specs.Selections.{IsLawful};
ghost use Rattle.rstar_uses.specs.Polygons.{x_of, y_of, side, contains, is_between, is_on_edge, is_crossed, rises_right_of};

#[cfg(test)]
mod coast;
#[cfg(test)]
mod shapes;

use rstar::envelope::copied_envelope;
use rstar::object::envelope_of_all;
use rstar::{
    AABB, DefaultParams, Envelope, InsertError, RTree, RTreeObject, RTreeParams, SelectionFunction,
};
use std::alloc::{AllocError, Global};
use std::marker::Model;

/// A polygon: a number and its corners. The last corner joins the first. Edges may cross, and a hole is walked to and
/// back along one line.
#[derive(Drop)]
pub struct Polygon {
    number: u64,
    corners: Vec<[i64; 2]>,
    bounds: AABB<[i64; 2]>,
}

// Contracts see the number and the list of the corners. There is a corner, and the box is that of all of them.
impl Model for Polygon {
    ghost use Rattle.std.specs.Prelude.{◌≡◌, ◌<◌, ℕ, ℤ, List, length};

    ghost Value = { ℕ × List (List ℤ) };

    ghost use Rattle.rstar_uses.specs.Polygons.{bounds_of};

    ghost view = { λ p. (p.number, p.corners.items) };

    ghost invariant = { λ p. (p.bounds ≡ bounds_of p.corners.items) × (0 < length p.corners.items) };
}

impl Polygon {
    /// The polygon of these corners. `None` where there is no corner.
    pub fn new(number: u64, corners: Vec<[i64; 2]>) -> Option<Polygon>
        ensures some { IsSome result ↔ (0 < length corners.items) }
        ensures made { MatchOption result (corners.items ≡ []) (λ polygon. polygon ≡ (number, corners.items)) }
    {
        if corners.is_empty() {
            return None;
        }
        let bounds = envelope_of_all(&corners);
        Some(Polygon {
            number,
            corners,
            bounds,
        })
    }

    /// The number.
    pub fn number(&self) -> u64
        ensures { result ≡ self.now.0 }
    {
        self.number
    }

    /// The corners. There is at least one.
    pub fn corners(&self) -> &[[i64; 2]]
        ensures list { result.now ≡ self.now.1 }
        ensures some { 0 < length self.now.1 }
    {
        &self.corners
    }

    /// Whether the polygon contains a point, by the even-odd rule. Borders belong to it. Where its box contains the
    /// point, that is a walk along all edges.
    pub fn contains(&self, point: [i64; 2]) -> bool
        ensures { result ≡ contains point self.now.1 }
    {
        self.bounds.contains_point(&point) && is_inside(&self.corners, point)
    }
}

impl RTreeObject for Polygon {
    type Envelope = AABB<[i64; 2]>;

    ghost use Rattle.rstar_uses.specs.Polygons.{polygon_objects};

    ghost object = { polygon_objects };

    fn envelope(&self) -> AABB<[i64; 2]> {
        copied_envelope(&self.bounds)
    }

    ghost object_law = { λ p h. h };
}

/// Polygons, in a tree. Equal ones each count.
#[derive(Drop)]
pub struct Polygons {
    tree: RTree<Polygon>,
}

// Contracts see the list of the polygons, in no order that is told. The tree is whole.
impl Model for Polygons {
    ghost use Rattle.std.specs.Prelude.{ℕ, ℤ, List};
    ghost use Rattle.rstar.specs.Trees.{elements_in, IsWholeTree};

    ghost Value = { List (ℕ × List (List ℤ)) };

    ghost view = { λ s. elements_in s.tree };

    ghost invariant = { λ s. IsWholeTree ⟦<AABB<[i64; 2]> as Envelope>⟧.boxes ⟦<Polygon as RTreeObject>⟧.object
        ⟦<DefaultParams as RTreeParams>⟧.MAX_SIZE s.tree };
}

impl Polygons {
    /// No polygon. It takes no memory.
    pub fn new(alloc: Global) -> Polygons
        ensures { result ≡ [] }
    {
        Polygons {
            tree: RTree::new(alloc),
        }
    }

    /// Adds a polygon. A refusal hands it back and leaves all others as they were.
    pub fn add(&mut self, polygon: Polygon) -> Result<(), InsertError<Polygon>>
        ensures added { OnOk result (IsPermutation (polygon ∷ self.old) self.new) }
        ensures handed_back { IfErr result (λ refused. refused.element ≡ polygon) }
        ensures unchanged { OnErr result (self.new ≡ self.old) }
    {
        // Does nothing but tell that there is a corner, and so a box.
        let _known = polygon.corners();
        self.tree.insert(polygon)
    }

    /// The polygons that contain a point, in some order. Borders belong to a polygon. Memory may be refused.
    pub fn at(&self, alloc: Global, point: [i64; 2]) -> Result<Vec<&Polygon>, AllocError>
        ensures { IfOk result (λ found. map (λ polygon. polygon.now) found.items
            ≡ filter (λ polygon. contains point polygon.1) self.now) }
    {
        selected(alloc, &self.tree, At { point })
    }

    /// The number of polygons.
    pub fn len(&self) -> usize
        ensures { result ≡ length self.now }
    {
        self.tree.size()
    }
}

/// Selects the polygons that contain a point.
#[derive(Drop)]
struct At {
    point: [i64; 2],
}

impl SelectionFunction<Polygon> for At {
    ghost accepts = { λ at e. box_contains_point e (table 2 (coordinate at.point)) };

    ghost selects = { λ at polygon. contains at.point polygon.1 };

    fn should_unpack_parent(&self, envelope: &AABB<[i64; 2]>) -> bool {
        envelope.contains_point(&self.point)
    }

    fn should_unpack_leaf(&self, polygon: &Polygon) -> bool {
        polygon.contains(self.point)
    }
}

/// The elements of a tree that a lawful function selects.
fn selected<'a, T: RTreeObject, Func: SelectionFunction<T>>(
    alloc: Global,
    tree: &'a RTree<T>,
    func: Func,
) -> Result<Vec<&'a T>, AllocError>
    requires whole { IsWholeTree T.Envelope.boxes T.object ⟦<DefaultParams as RTreeParams>⟧.MAX_SIZE tree.now }
    requires lawful { IsLawful T.Envelope.boxes T.object (Func.accepts func) (Func.selects func) }
    ensures { IfOk result (λ found. map (λ t. t.now) found.items ≡ filter (Func.selects func) (elements_in tree.now)) }
{
    match tree.locate_with_selection_function(func) {
        Ok(walk) => walk.collect(alloc),
        Err(refused) => Err(refused),
    }
}

/// Whether a number lies between two, given in any order, or is one of them.
fn is_between(a: i64, b: i64, number: i64) -> bool
    ensures { result ≡ is_between a b number }
{
    a.min(b) <= number && number <= a.max(b)
}

/// Whether a point lies in the box of an edge.
fn is_beside(point: [i64; 2], a: [i64; 2], b: [i64; 2]) -> bool
    ensures { result ≡ (is_between (x_of a) (x_of b) (x_of point) && is_between (y_of a) (y_of b) (y_of point)) }
{
    is_between(a[0], b[0], point[0]) & is_between(a[1], b[1], point[1])
}

/// The area between a point, the column of one corner and the row of another.
fn area(point: [i64; 2], column: [i64; 2], row: [i64; 2]) -> u128
    ensures { result ≡ unsigned_abs (x_of column -ℤ x_of point) * unsigned_abs (y_of row -ℤ y_of point) }
{
    u128::from(column[0].abs_diff(point[0])) * u128::from(row[1].abs_diff(point[1]))
}

/// Whether a point lies on an edge, ends included.
fn is_on_edge(point: [i64; 2], a: [i64; 2], b: [i64; 2]) -> bool
    ensures { result ≡ is_on_edge point (a, b) }
{
    is_beside(point, a, b) && area(point, a, b) == area(point, b, a)
}

/// Whether a point lies left of an edge that rises past its height.
fn is_left_of(point: [i64; 2], a: [i64; 2], b: [i64; 2]) -> bool
    requires begins { y_of a ≤ℤ y_of point }
    requires ends { y_of point <ℤ y_of b }
    ensures { result ≡ int_lt (pos 0) (side point a b) }
{
    match (point[0] < a[0], point[0] < b[0]) {
        (true, true) => true,
        (true, false) => area(point, b, a) < area(point, a, b),
        (false, true) => area(point, a, b) < area(point, b, a),
        (false, false) => false,
    }
}

/// Whether the way from `a` to `b` rises right of a point: from its height or below to above it.
fn rises_right_of(point: [i64; 2], a: [i64; 2], b: [i64; 2]) -> bool
    ensures { result ≡ rises_right_of point a b }
{
    a[1] <= point[1] && point[1] < b[1] && is_left_of(point, a, b)
}

/// Whether the ray from a point to the right crosses an edge.
fn is_crossed(point: [i64; 2], a: [i64; 2], b: [i64; 2]) -> bool
    ensures { result ≡ is_crossed point (a, b) }
{
    rises_right_of(point, a, b) || rises_right_of(point, b, a)
}

/// Whether a polygon with these corners contains a point.
fn is_inside(corners: &[[i64; 2]], point: [i64; 2]) -> bool
    ensures { result ≡ contains point corners.now }
{
    let Some(last) = corners.last() else {
        return false;
    };
    let mut from = *last;
    let mut is_inside = false;
    for to in corners {
        if is_on_edge(point, from, *to) {
            return true;
        }
        is_inside ^= is_crossed(point, from, *to);
        from = *to;
    }
    is_inside
}
