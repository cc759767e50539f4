//! Generic code over points, equal elements and selection functions, and its callers at concrete types.

ghost use Rattle.std.specs.Prelude.{◌≡◌, ◌<◌, ◌↔◌, ◌==◌, ◌&&◌, ℕ, IsTrue, if◌then◌else◌};
ghost use Rattle.std.specs.Ordering.{ordering_then};
ghost use Rattle.rstar_base.specs.Points.{table};

use rstar_base::algorithm::selection_functions::{
    SelectAtPointFunction, SelectEqualsFunction, SelectInEnvelopeFuncIntersecting,
    SelectInEnvelopeFunction, SelectWithinDistanceFunction,
};
use rstar_base::mint::Point2;
use rstar_base::point::known;
use rstar_base::primitives::{GeomWithData, Line, PointWithData, Rectangle};
use rstar_base::{
    AABB, Distance, Envelope, EqualEnvelopes, Point, PointDistance, PointOf, RTreeObject,
    SelectionFunction,
};
use std::cmp::Ordering;

/// An element with a number.
type Numbered<R> = GeomWithData<R, u64>;

// A write changes that coordinate and no other.
fn write<P: Point>(p: &mut P, i: usize, s: P::Scalar)
    requires { i < P.DIMENSIONS }
    ensures { (j : ℕ) → j < P.DIMENSIONS → P.coord p.new j ≡ (if j == i then P.Scalar.value s else P.coord p.old j) }
{
    *p.nth_mut(i) = s;
}

// And so does a write after it.
fn write_two<P: Point>(p: &mut P, i: usize, s: P::Scalar, k: usize, t: P::Scalar)
    requires i { i < P.DIMENSIONS }
    requires k { k < P.DIMENSIONS }
    ensures { (j : ℕ) → j < P.DIMENSIONS
        → P.coord p.new j
        ≡ (if j == k then P.Scalar.value t else if j == i then P.Scalar.value s else P.coord p.old j) }
{
    *p.nth_mut(i) = s;
    *p.nth_mut(k) = t;
}

// Two points are equal exactly where all coordinates are.
fn same<P: Point>(p: &P, q: &P) -> bool
    requires { 0 < P.DIMENSIONS }
    ensures { IsTrue result ↔ (table P.DIMENSIONS (P.coord p.now) ≡ table P.DIMENSIONS (P.coord q.now)) }
{
    known(p);
    known(q);
    p == q
}

// The same after a write.
fn same_written<P: Point>(p: &mut P, q: &P, i: usize, s: P::Scalar) -> bool
    requires { i < P.DIMENSIONS }
    ensures { IsTrue result ↔ (table P.DIMENSIONS (P.coord p.new) ≡ table P.DIMENSIONS (P.coord q.now)) }
{
    *p.nth_mut(i) = s;
    let _p = p.nth(i);
    let _q = q.nth(i);
    *p == *q
}

// At concrete types.
fn moved(p: &mut [i64; 2], q: &mut Point2<i64>, t: &mut (i64, i64))
    ensures array { ⟦<[i64; 2] as Point>⟧.coord p.new 1 ≡ ⟦<[i64; 2] as Point>⟧.coord p.old 1 }
    ensures tuple { ⟦<(i64, i64) as Point>⟧.coord t.new 1 ≡ ⟦<(i64, i64) as Point>⟧.coord t.old 1 }
{
    *p.nth_mut(0) = 7;
    *q.nth_mut(0) = 7;
    write(t, 0, 7);
}

// Equal elements have equal envelopes.
fn alike<T: EqualEnvelopes>(a: &T, b: &T) -> bool
    ensures { IsTrue result → T.object.box_of a.now ≡ T.object.box_of b.now }
{
    let _a = a.envelope();
    let _b = b.envelope();
    a == b
}

fn points_alike(a: &[i64; 2], b: &[i64; 2]) -> bool
    ensures { IsTrue result
        → ⟦<[i64; 2] as RTreeObject>⟧.object.box_of a.now ≡ ⟦<[i64; 2] as RTreeObject>⟧.object.box_of b.now }
{
    alike(a, b)
}

fn numbered_alike<R: EqualEnvelopes>(a: &Numbered<R>, b: &Numbered<R>) -> bool
    ensures { IsTrue result
        → ⟦<Numbered<R> as RTreeObject>⟧.object.box_of a.now ≡ ⟦<Numbered<R> as RTreeObject>⟧.object.box_of b.now }
{
    alike(a, b)
}

// Equality and order that are derived go by the fields in turn.
fn stops_alike<T: PartialEq, P: PartialEq>(a: &PointWithData<T, P>, b: &PointWithData<T, P>) -> bool
    ensures { result ≡ (T.eq a.now.1 b.now.1 && P.eq a.now.0 b.now.0) }
{
    a == b
}

fn lines_in_turn<P: Ord>(a: &Line<P>, b: &Line<P>) -> Ordering
    ensures { result ≡ ordering_then (P.cmp a.now.from b.now.from) (P.cmp a.now.to b.now.to) }
{
    a.cmp(b)
}

// The rectangle of a box has its corners.
fn framed<P: Point>(aabb: AABB<P>) -> Rectangle<P>
    ensures { ⟦<Rectangle<P> as RTreeObject>⟧.object.box_of result ≡ aabb }
{
    Rectangle::from(aabb)
}

// Whether two elements are equal and have one envelope, which is not empty, where both have the number 7, and are told
// apart where the other has the number 8.
fn are_told_apart<R: EqualEnvelopes + Copy>(one: R, other: R) -> bool {
    let a = Numbered::new(one, 7);
    let mut b = Numbered::new(other, 7);
    let envelope = a.envelope();
    let equal = !envelope.is_empty()
        && envelope == other.envelope()
        && a.data == 7
        && numbered_alike(&a, &b);
    b.data = 8;
    equal && !numbered_alike(&a, &b)
}

#[test]
fn a_place_has_the_envelope_of_its_rectangle(rt: HostRuntime) {
    let one: Rectangle<[i64; 2]> = Rectangle::from_corners([2, 0], [0, 4]);
    assert!(rt; are_told_apart(one, Rectangle::from_corners([0, 0], [2, 4])));
}

#[test]
fn points_are_written_and_compared(rt: HostRuntime) {
    let mut p = [1, 2];
    let mut q = Point2 { x: 3, y: 4 };
    let mut t = (5, 6);
    moved(&mut p, &mut q, &mut t);
    assert!(rt; p == [7, 2] && q == Point2 { x: 7, y: 4 } && t == (7, 6));
    write_two(&mut p, 0, 8, 1, 9);
    assert!(rt; same(&p, &[8, 9]) && !same(&p, &[8, 8]));
    assert!(rt; same_written(&mut p, &[8, 5], 1, 5));
    assert!(rt; points_alike(&p, &[8, 5]) && !points_alike(&p, &[5, 8]));
}

// One place with two payloads; the two diagonals of a box, and the box.
#[test]
fn carriers_are_compared_by_their_fields(rt: HostRuntime) {
    let stop = PointWithData::new(7u64, [1i64, 2]);
    assert!(rt; stops_alike(&stop, &stop) && !stops_alike(&stop, &PointWithData::new(8, [1, 2])));
    let rising = Line::new([0i64, 0], [4, 4]);
    assert!(rt; lines_in_turn(&rising, &Line::new([0, 4], [4, 0])).is_lt());
    let flat = AABB::from_corners([0i64, 4], [4, 4]);
    assert!(rt; framed(flat) == Rectangle::from_corners([0, 4], [4, 4]));
}

type Segment = Line<[i64; 2]>;

// Whether a function opens a parent of this element alone, and whether it gives the element.
fn asked<T: RTreeObject, F: SelectionFunction<T>>(func: F, element: &T) -> (bool, bool) {
    (
        func.should_unpack_parent(&element.envelope()),
        func.should_unpack_leaf(element),
    )
}

// What is opened and given of what lies in an envelope, of what meets it, of what contains a point, of
// what is within a squared distance of it, and of what equals an element.
fn asked_all<T: PointDistance + EqualEnvelopes>(
    element: &T,
    area: T::Envelope,
    point: PointOf<T>,
    limit: Distance<T>,
    equal: &T,
) -> [(bool, bool); 5]
where
    T::Envelope: Copy,
    PointOf<T>: Copy,
{
    [
        asked(SelectInEnvelopeFunction::new(area), element),
        asked(SelectInEnvelopeFuncIntersecting::new(area), element),
        asked(SelectAtPointFunction::new(point), element),
        asked(SelectWithinDistanceFunction::new(point, limit), element),
        asked(SelectEqualsFunction::new(equal), element),
    ]
}

// The box from [0, 0] to [4, 4], the point [1, 3], the squared distance 2, and the line from [0, 0] to
// [4, 4].
#[test]
fn selections_open_and_give_what_they_ask_for(rt: HostRuntime) {
    let both = (true, true);
    let opened = (true, false);
    let neither = (false, false);
    let rows: [(Segment, [(bool, bool); 5]); 6] = [
        (Line::new([0, 0], [4, 4]), [both, both, opened, both, both]),
        (
            Line::new([4, 4], [0, 0]),
            [both, both, opened, both, opened],
        ),
        (
            Line::new([0, 0], [2, 6]),
            [opened, both, both, both, neither],
        ),
        (
            Line::new([1, 4], [1, 9]),
            [opened, both, neither, both, neither],
        ),
        (Line::new([0, 2], [2, 4]), [both, both, both, both, neither]),
        (
            Line::new([5, 0], [9, 3]),
            [neither, neither, neither, neither, neither],
        ),
    ];
    let area = AABB::from_corners([0, 0], [4, 4]);
    let equal = Line::new([0, 0], [4, 4]);
    for (segment, wanted) in rows.iter() {
        assert!(rt; asked_all(segment, area, [1, 3], 2, &equal) == *wanted);
    }
}
