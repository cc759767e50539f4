//! Mutable borrows of payloads.

ghost use Rattle.std.specs.Prelude.{◌≡◌, is_some, IfSome};
ghost use Rattle.std.specs.Borrow.{sem};
ghost use Rattle.std.specs.List.{list_any};
ghost use Rattle.rstar_base.specs.Points.{table};
ghost use Rattle.rstar.specs.Payloads.{LendsPayloadOf, IsPayloadOf};
ghost use Rattle.rstar.specs.Trees.{elements_in, IsWholeTree};

use crate::payloads::{first_finding, payload_below};
use crate::rtree::RTree;
use rstar_base::point::known;
use rstar_base::primitives::GeomWithData;
use rstar_base::{Envelope, Point, PointDistance, PointOf, RTreeObject, RTreeParams};

impl<R: PointDistance, D: Drop, Params: RTreeParams> RTree<GeomWithData<R, D>, Params> {
    /// A mutable borrow of the payload of an element that contains a point. `None` comes exactly where none
    /// does. A write changes nothing else of the tree.
    ///
    /// It visits the parents whose envelopes contain the point until it finds an element, and searches again
    /// below each parent on the way down. It takes no memory.
    #[tactic(auto, unfolding(crate::specs::Trees::IsWholeTree))]
    pub fn locate_at_point_mut(&mut self, point: PointOf<R>) -> Option<&mut D>
        requires { IsWholeTree R.Envelope.boxes ⟦<GeomWithData<R, D> as RTreeObject>⟧.object Params.MAX_SIZE self.old }
        ensures* writes_back { sem 𝓛 (LendsPayloadOf R.row D.row Params.row R.Envelope.row R.Envelope.Point.row
            R.Envelope.Point.Scalar.row R.Envelope.Point.Scalar.FromStrRadixErr.row R.Envelope.boxes
            ⟦<GeomWithData<R, D> as PointDistance>⟧.distances
            (table R.Envelope.Point.DIMENSIONS (R.Envelope.Point.coord point)) self.entry result) }
        ensures some { is_some result ≡ list_any
            (λ t. ⟦<GeomWithData<R, D> as PointDistance>⟧.distances.contains_point t
            (table R.Envelope.Point.DIMENSIONS (R.Envelope.Point.coord point))) (elements_in self.old) }
        ensures found { IfSome result (λ slot. IsPayloadOf R.Envelope.boxes
            ⟦<GeomWithData<R, D> as RTreeObject>⟧.object ⟦<GeomWithData<R, D> as PointDistance>⟧.distances
            Params.MAX_SIZE (table R.Envelope.Point.DIMENSIONS (R.Envelope.Point.coord point)) self.old slot.now) }
    {
        // Does nothing but tell that the point's coordinates are in their range.
        known(&point);
        let levels = self.levels;
        let index = first_finding(self.root.children.as_slice(), &point);
        if index < self.root.children.len() {
            Some(payload_below(&mut self.root, index, &point, levels))
        } else {
            None
        }
    }

    /// The same as `locate_at_point_mut`. In rstar the two traverse in different ways.
    pub fn locate_at_point_int_mut(&mut self, point: PointOf<R>) -> Option<&mut D>
        requires { IsWholeTree R.Envelope.boxes ⟦<GeomWithData<R, D> as RTreeObject>⟧.object Params.MAX_SIZE self.old }
        ensures* writes_back { sem 𝓛 (LendsPayloadOf R.row D.row Params.row R.Envelope.row R.Envelope.Point.row
            R.Envelope.Point.Scalar.row R.Envelope.Point.Scalar.FromStrRadixErr.row R.Envelope.boxes
            ⟦<GeomWithData<R, D> as PointDistance>⟧.distances
            (table R.Envelope.Point.DIMENSIONS (R.Envelope.Point.coord point)) self.entry result) }
        ensures some { is_some result ≡ list_any
            (λ t. ⟦<GeomWithData<R, D> as PointDistance>⟧.distances.contains_point t
            (table R.Envelope.Point.DIMENSIONS (R.Envelope.Point.coord point))) (elements_in self.old) }
        ensures found { IfSome result (λ slot. IsPayloadOf R.Envelope.boxes
            ⟦<GeomWithData<R, D> as RTreeObject>⟧.object ⟦<GeomWithData<R, D> as PointDistance>⟧.distances
            Params.MAX_SIZE (table R.Envelope.Point.DIMENSIONS (R.Envelope.Point.coord point)) self.old slot.now) }
    {
        self.locate_at_point_mut(point)
    }
}
