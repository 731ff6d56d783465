//! The two commands of an audit, over a disk: how the verdicts for an address at a node came about ([`run_explain`]), and who may read a node
//! ([`run_readers`]).
//!
//! Each opens the store to read it, which upgrades its header and adds no entry, makes all lines of its report, and gives the disk back. `specs/Report.antt`
//! has the lines as texts (`explain_report`, `readers_report`). `specs/Audited.antt` says what comes of it (`Audited`): the lines of the entries that the
//! store has, or why there is no report, and what became of the store.
#![tactic(auto)]

mod lines;
mod running;

pub use running::{AuditRun, run_explain, run_readers};
