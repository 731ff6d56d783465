//! Discovery (XEP-0030): what the service, an account or a node is, and which nodes and items there are (XEP-0060 §5.1 to §5.5).
//!
//! [`plan`] is the model's check for the two kinds that are planned here (`specs/Plans.antt`), at the service host and at accounts: a
//! node that is named stands, and is read only by those who may. What an address may not read is left out of an account's list.
//! Neither kind makes an entry. `specs/Entries.antt` has the trees of a list by the texts that they hold, and what of a node's key
//! says that it is listed; `specs/Held.antt` says by which places the nodes of a collection are found and listed.
#![tactic(auto)]

mod entries;
mod features;
mod held;
mod info;
mod listed;
mod plans;

pub use plans::plan;
