//! The notices of an entry: what its events give, to whom, under which numbers, as the lines that are handed out.
//!
//! [`notices_of`] asks of each event what it hands to each address (`ps_fanout`): of a node that is deleted in the tables before the entry, of any
//! other in those after it. What several events give stands by address, and an address gets it in the order of the events (`all_due` of ps_model). Each has
//! the number that follows those made for its bare address, whatever its resource, and is printed with the id of that number (`numbered` of ps_model).
//! `specs/Due.antt` names what the events give, and what is asked of the numbers.
#![tactic(auto)]

mod arranged;
mod notices;
mod numbers;
mod told;

pub use notices::notices_of;
