//! Iterators over a tree.

mod drain;
mod into_iter;
mod joins;
mod selection;

pub use crate::algorithm::nearest_neighbor::{
    NearestNeighborDistance2Iterator, NearestNeighborIterator,
};
pub use crate::iterators::drain::DrainIterator;
pub use crate::iterators::into_iter::IntoIter;
pub use crate::iterators::joins::{InEnvelope, IntersectionIterator, SelfIntersectionIterator};
pub use crate::iterators::selection::SelectionIterator;
pub use crate::visits::{select_nodes, select_nodes_mut};
use rstar_base::algorithm::envelope_selection::SelectWithinDistanceOfEnvelope;
use rstar_base::algorithm::selection_functions::{
    SelectAllFunc, SelectAtPointFunction, SelectInEnvelopeFuncIntersecting,
    SelectInEnvelopeFunction, SelectWithinDistanceFunction,
};

/// All elements of a tree.
pub type RTreeIterator<'a, T> = SelectionIterator<'a, T, SelectAllFunc>;

/// The elements whose envelopes an envelope contains.
pub type LocateInEnvelope<'a, T> = SelectionIterator<'a, T, SelectInEnvelopeFunction<T>>;

/// The elements whose envelopes an envelope intersects.
pub type LocateInEnvelopeIntersecting<'a, T> = SelectionIterator<
    'a,
    T,
    SelectInEnvelopeFuncIntersecting<T>,
>;

/// The elements that contain a point.
pub type LocateAllAtPoint<'a, T> = SelectionIterator<'a, T, SelectAtPointFunction<T>>;

/// The elements within a squared distance of a point.
pub type LocateWithinDistanceIterator<'a, T> = SelectionIterator<
    'a,
    T,
    SelectWithinDistanceFunction<T>,
>;

/// The elements whose envelopes lie within a squared distance of an envelope.
pub type LocateWithinDistanceOfEnvelope<'a, T> = SelectionIterator<
    'a,
    T,
    SelectWithinDistanceOfEnvelope<T>,
>;
