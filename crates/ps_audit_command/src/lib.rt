//! The commands that report on a store, in a world: [`explain_store`] and [`list_readers`] open the store, have it audited (ps_audit_run), and give it back.
//!
//! What comes of them are the lines of a report, or how the command ended; telling either is the caller's. `specs/Auditing.antt` says what they do to a
//! world (`Explains`, `Lists`): the lines are those of the entries that the store has, and nothing but the store is touched, which keeps its entries
//! (`Audited` of ps_audit_run).
#![tactic(auto)]

mod auditing;

pub use auditing::{explain_store, list_readers};
