//! What an accepted request gives rise to.
//!
//! [`events`] is the model's list of events (`Events` in ps_model, and the files that it names), in the order in which they are told: of
//! the Book in which the request is accepted, and of the one that it leaves. It changes nothing, and fails where memory fails alone.
//! ps_fanout says to whom each of them is told, and by what stanza.
//!
//! It asks for the rows of the request's node and of the sender. Where a resource comes to want nodes that it didn't want before, by a
//! presence or an answer about capabilities, it goes through the nodes of the names that it has come to ask for, found by the index of
//! names (`Nodes::places_named`), in the order of their making.
//!
//! `specs/Kinds.antt` has the groups of kinds by what their events are made of, `specs/Parts.antt` the parts that these are made of, and
//! `specs/Wanted.antt` which nodes new features ask for.
#![tactic(auto)]

mod kinds;
mod named;
mod node_events;
mod presence_events;
mod row_events;
mod sub_events;
mod wanted;

pub use kinds::events;
