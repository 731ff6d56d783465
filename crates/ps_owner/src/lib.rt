//! The requests of node owners (XEP-0060 §8): what each is checked by, and what an accepted one answers.
//!
//! [`plan`] is the model's check for the kinds that are planned here (`specs/Plans.antt`), at the service host and at accounts: the
//! first step that fails denies, by its condition, and else the plan has the child of the result and says whether an entry is made.
//!
//! Where affiliations and subscriptions are set, an entry is made where the table differs afterwards, also in the order of its rows.
//! That is decided by the rows of the addresses that are asked for, with the last other row of the table (`specs/Edits.antt`): a row that
//! goes and comes back is the last one of the table, so the table is as it was exactly where these rows are.
#![tactic(auto)]

mod affil_edits;
mod affils_set;
mod approve;
mod config_set;
mod configs;
mod create;
mod going;
mod listing;
mod plans;
mod sub_edits;
mod subs_set;

pub use plans::plan;
