//! Tests of the tables of nodes, of what stands on a node, and of the chains that index them: each call once, and what stays.
//!
//! They stand in a crate of their own, since a crate with tests is proved twice. Nothing stands on this crate, and it has no public function.
#![tactic(auto)]

#[cfg(test)]
mod affils;
#[cfg(test)]
mod chains;
#[cfg(test)]
mod counts;
#[cfg(test)]
mod items;
#[cfg(test)]
mod links;
#[cfg(test)]
mod nodes;
#[cfg(test)]
mod subs;
#[cfg(test)]
mod words;
