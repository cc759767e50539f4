//! Types of one's own that need no tree, and rows: what each call of `rstar_base` answers.
//!
//! What is asked is generic over the points, a test gives rows: the same steps at a concrete type are dear to prove.
#![tactic(auto)]

#[cfg(test)]
mod boxes;
pub mod counted;
pub mod doors;
#[cfg(test)]
mod elements;
pub mod frames;
#[cfg(test)]
mod generic;
#[cfg(test)]
mod heaps;
pub mod interval;
#[cfg(test)]
mod marks;
#[cfg(test)]
mod points;
#[cfg(test)]
mod slabs;
