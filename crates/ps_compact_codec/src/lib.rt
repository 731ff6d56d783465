//! The rows of a compacted store, and the trees that they are written as.
//!
//! A compacted store begins with rows in the place of the entries that led to them, each written as a tree. A [`StoredRow`] is such a row: one of a table, or of what is told beside them.
//! A contract sees it as the model's `BaseRow` (`specs/Said.antt`).
//!
//! [`row_tree`] makes the tree of a row, as `BaseRows.row_tree` of the model says, and so do the calls for each kind. [`read_row`] reads the row that a tree is, as `BaseRead.row_of` says:
//! a tree is a row only where it is just what the row is written as.
//!
//! A row's numbers are below 2^64 here, and any in the model. `specs/Held.antt` has the row that a tree is with such numbers, and [`accepted_rows_are_held`] is the law that no State
//! accepts another.
#![tactic(auto)]

mod build;
mod laws;
mod node_rows;
mod node_trees;
mod numbers;
mod parts;
mod people_rows;
mod people_trees;
mod read;
mod row;
mod tree;
mod words;

pub use laws::accepted_rows_are_held;
pub use node_trees::{affil_tree, count_tree, item_tree, link_tree, node_tree, sub_tree};
pub use people_trees::{contact_tree, counter_tree, notice_tree, ver_tree};
pub use read::read_row;
pub use row::StoredRow;
pub use tree::row_tree;
