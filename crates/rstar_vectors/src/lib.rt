//! Tests over trees.
#![tactic(auto)]

#[cfg(test)]
mod by_order;
#[cfg(test)]
mod counted;
#[cfg(test)]
mod extremes;
#[cfg(test)]
mod insertion;
#[cfg(test)]
mod joins;
#[cfg(test)]
mod loads;
#[cfg(test)]
mod neighbour_rows;
#[cfg(test)]
mod neighbours;
#[cfg(test)]
mod node_sizes;
#[cfg(test)]
mod pairs;
#[cfg(test)]
mod payloads;
#[cfg(test)]
mod places;
#[cfg(test)]
mod readings;
#[cfg(test)]
mod refusals;
#[cfg(test)]
mod reinsertion;
#[cfg(test)]
mod removal;
#[cfg(test)]
mod scenarios;
#[cfg(test)]
mod selections;
#[cfg(test)]
mod stored;
#[cfg(test)]
mod trials;
#[cfg(test)]
mod visits;
