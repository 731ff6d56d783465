//! The nodes (XEP-0060 §8.1), in the order of their making.
//!
//! [`Nodes`] is seen as the list of its rows and its spare (`ps_base`, `specs/Rows.antt`). What each call does with that list is
//! said in `ps_types`, `specs/Nodes.antt`: a row is of a key, a key has at most one row, a new row goes last, and where one goes
//! the others keep their order. [`Nodes::row`] and [`Nodes::get`] hand out a [`NodeRef`], which `row_seen` of `specs/NodeRows.antt`
//! reads as the row. Rows stand in places (`ps_rows`), so none moves where another goes; the empty places are listed beside them
//! (`specs/Gaps.antt`), and from that list comes how many rows stand before a place. A row is found by its key, by the bare address
//! that made it, and by its service host or account (`specs/Served.antt`), and its place by its name (`specs/Named.antt`). All of it goes by digests,
//! and all digests by the seed of the table.
#![tactic(auto)]

mod asks;
mod entries;
mod gaps;
mod named;
mod names;
mod nodes;
mod served;

pub use nodes::{Exists, NodeRef, Nodes};
