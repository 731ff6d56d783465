//! Audit of a store: how the verdicts for an address at a node came about, and who may read a node.
//!
//! [`observe`] takes the entries of a store, to which none is added. An [`Explaining`] sees them, and asks the four verdicts after each: it has the
//! history of `ps_audit_laws` (`history`), whose laws say that after any number of entries the verdicts are those of the last line up to there.
//! [`readers`] asks after all of them whether each known address may read: its lines are those of `readers` there, with what holds of all others, and
//! the laws say that they tell whether any address at all may read (`specs/Listed.antt`, `AreReaders`).
//!
//! Each is one pass over the entries, in the memory of their rows.
#![tactic(auto)]

mod asking;
mod codes;
mod explaining;
mod knowing;
mod listing;
mod reading;

pub use codes::condition_number;
pub use explaining::Explaining;
pub use listing::ReaderList;
pub use ps_audit_laws::{ExplainLine, Four};
pub use ps_hall_open::{Nobody, Observed, ReadOnlyRefusal, ReadWhy, observe};
pub use reading::readers;
