//! The service: a State, kept twice, and what it answers.
//!
//! [`Service::answer`] is the model's reply and entry of a line at the State. [`Service::accepts`] says whether an entry is accepted
//! there; [`Service::prepare`] and [`Service::commit`] take it, in two steps, so that nothing fails once the journal has it, and
//! [`Service::apply`] is both. [`Service::prepare`] gives the notices that the entry makes (`notices_at`). [`Service::prepare_own`] does so by
//! the entry itself, of which [`Service::prepare`] makes a copy, and [`Service::prepared`] tells it. [`Service::prepare_accepted`] does so only if
//! the entry is accepted, and takes its tree as a request once (`specs/Accepting.antt`). The second copy is edited while the first
//! one stands, so running out of memory changes nothing; the numbers of notices are set as the entry is taken (`specs/NumberChange.antt`).
//! A compacted store begins with rows, which are accepted before the first boot alone: `specs/Rows.antt` has what the copies know of one.
//! [`Service::base`] gives the entries of the Book's rows, and [`Service::tallies`] the numbers of notices.
//! A contract sees a service as its State and the entry that is prepared (`specs/Stages.antt`). Beside the tables stands what each
//! resource wants by its features (`specs/Wants.antt`), which [`Service::wants`] hands out.
#![tactic(auto)]

mod accepting;
mod answers;
mod half;
mod lines;
mod numbers;
mod plans;
mod rows;
mod service;
mod taking;
mod telling;
mod wanting;

pub use answers::{Answer, WithRequest};
pub use half::Half;
pub use lines::LastLines;
pub use numbers::NumberChange;
pub use service::{Service, Stage};
