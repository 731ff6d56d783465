//! Two services side by side, and an address that may not read some nodes of either: what it can learn of them.
//!
//! [`step`] does a deed at each of them. Each answers and goes on as the definitions say (`Deeds.Says`, `Deeds.state_after`). Where the services differ in nothing but the
//! items of nodes that are shut to the outsider, and the two deeds are a pair, it learns nothing (`Outsider.LearnsNothing`): the services still differ in nothing else, the
//! replies to it are the same, byte for byte, and the notices to it have the same addresses, numbers and lines.
//!
//! [`each_service_is_secret`] says the law of whole runs of `ps_secrecy` of the service that the hall has, which answers as that law asks.
//!
//! `specs/Deeds.antt` says what a [`Deed`] makes, `specs/Outsider.antt` which deeds are a pair and what an outsider gets of them. The crate's clauses stand on the laws of
//! `ps_secrecy` and on the contracts of `ps_core`.
//!
//! Not covered: that a node stands, its configuration and its rows; time; what other addresses hear; a call that ran out of memory; a journal that is full.
#![tactic(auto)]

mod deed;
mod laws;
mod stepping;

pub use deed::{Deed, Said};
pub use laws::{each_deed_is_secret, each_line_is_due, each_service_is_secret};
pub use ps_core::Service;
pub use stepping::{is_due, step};
