//! The algorithms of the tree.

pub mod bulk_load;
pub(crate) mod gathering;
pub mod nearest_neighbor;
pub(crate) mod removal;
pub mod rstar;

pub use rstar_base::algorithm::{envelope_selection, selection_functions};
