//! The requests of those who subscribe and read (XEP-0060 §5, §6), what the router tells of rosters and presences (RFC 6121 §2, §4), and
//! what a resource answers of its capabilities (XEP-0115 §5.4): what each is checked by, and what an accepted one answers.
//!
//! [`plan`] is the model's check for the kinds that are planned here (`specs/Plans.antt`), whatever the target: the first step that
//! fails denies, by its condition, and else the plan has the child of the result and says whether an entry is made. It says so by the
//! rows concerned: `specs/Kept.antt`, `specs/Contacts.antt`, `specs/Resources.antt` and `specs/Answers.antt` say when such a row is as it was.
//! [`max_contacts`] is the limit of a roster.
#![tactic(auto)]

mod affils;
mod build;
mod capabilities;
mod change;
mod items;
mod mine;
mod options_get;
mod options_set;
mod plans;
mod presence;
mod roster;
mod subs;
mod subscribe;
mod unsubscribe;

pub use plans::plan;
pub use roster::max_contacts;
