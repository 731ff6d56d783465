//! What an accepted request does to the tables.
//!
//! [`change`] leaves the tables as the model's `changed` leaves the Book (`Changes` in ps_model, and the files that it names, one for
//! each group of kinds). It makes room first and then edits in place; only memory fails, and what it then leaves of the tables is no
//! Book to go on with. `specs/Kinds.antt` has the groups of kinds by what they change, and what is asked of a Book.
#![tactic(auto)]

mod affils;
mod capabilities;
mod changes;
mod configure;
mod create;
mod delete;
mod items;
mod presences;
mod publishing;
mod rosters;
mod subs;

pub use changes::change;
