//! What C calls.

mod changes;
mod drains;
mod neighbours;
mod pairs;
mod selections;
