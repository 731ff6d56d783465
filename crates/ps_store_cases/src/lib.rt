//! Worked cases of stores: their bytes, and what stands for a list once it is compacted.
//!
//! Each function here has an empty body, and its contract is the case, by the definitions of `ps_model` and in the words of `ps_model_cases`: the bytes have this list,
//! each entry of which is accepted at its place, or they are damaged at this place; the list has these rows, and the rows serve on as the list would. Nothing
//! stands on this crate.
//!
//! The words of `specs/`: `Stores` has the bytes, `Bases` a list with its rows; `Bases.ServesOn` says that one list serves on as another does.
#![tactic(auto)]

mod bases;
mod stores;

pub use bases::{compacted_rows, rows_serve_on};
pub use stores::{
    damaged_entries, damaged_frames, moments_in_version_2, one_boot_store, stores_not_begun,
};
