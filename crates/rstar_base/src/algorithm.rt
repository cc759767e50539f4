//! The parts of a traversal.

pub mod envelope_selection;
pub mod selection_functions;
