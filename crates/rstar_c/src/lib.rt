//! An R*-tree of rectangles with IDs, for C and for what calls C.
#![tactic(auto)]

mod exports;
mod held;
mod index;
mod items;
mod parts;
mod put;
mod questions;
mod statuses;
mod store;
mod trees;
mod walk;

pub use crate::index::Index;
pub use crate::items::{Corners, Place};
