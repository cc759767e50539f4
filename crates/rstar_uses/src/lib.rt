//! Worked uses: each is a struct that hides its tree, with contracts over a plain list.
#![tactic(auto)]

pub mod dispatch;
pub mod geofence;
pub mod overlaps;
pub mod polygons;
pub mod spacing;
