//! The base of an R*-tree with proved answers: scalars, points, bounding boxes and elements.
#![tactic(auto)]

pub mod aabb;
pub mod algorithm;
mod axes;
pub mod clusters;
pub mod envelope;
pub mod gaps;
pub mod heap;
pub mod mint;
pub mod object;
pub mod params;
mod partition;
mod places;
pub mod point;
pub mod primitives;
mod segments;

pub use crate::aabb::AABB;
pub use crate::algorithm::selection_functions::SelectionFunction;
pub use crate::envelope::{Counted, Envelope};
pub use crate::gaps::EnvelopeDistance;
pub use crate::object::{Distance, EqualEnvelopes, PointDistance, PointOf, RTreeObject};
pub use crate::params::{DefaultParams, RTreeParams};
pub use crate::point::{Point, RTreeNum};
