//! Which resources want the events of which nodes (XEP-0163 §4.2, XEP-0115 §1), kept as resources come, tell their features and go.
//!
//! [`Wants`] is seen as the list of its rows, each of a resource and the name of nodes that it wants. `specs/Wants.antt` says when a
//! resource wants the nodes of a name by these rows, and when this is as the features of the resources that are present say
//! (`AreWants`): each call keeps it so, as the table of resources (`ps_types`, `specs/Resources.antt`) changes. A row is found by
//! digests of the resource, of the name and of the resource's host (`ps_rows`).
#![tactic(auto)]

mod asks;
mod names;
mod sorted;
mod want;
mod wants;

pub use want::Want;
pub use wants::Wants;
