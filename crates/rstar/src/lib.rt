//! An R*-tree with proved answers.
#![tactic(auto)]

pub mod algorithm;
mod bounds;
pub mod iterators;
pub mod node;
pub mod params;
mod path;
mod payloads;
pub mod replay;
pub mod rtree;
pub mod stored;
mod visits;

pub use crate::algorithm::rstar::RStarInsertionStrategy;
pub use crate::node::{ParentNode, RTreeNode};
pub use crate::params::{DefaultParams, InsertCause, InsertError, InsertionStrategy, RTreeParams};
pub use crate::rtree::RTree;
pub use rstar_base::{
    AABB, Counted, Envelope, EnvelopeDistance, EqualEnvelopes, Point, PointDistance, RTreeNum,
    RTreeObject, SelectionFunction, aabb, envelope, mint, object, point, primitives,
};
