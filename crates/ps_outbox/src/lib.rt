//! The notices that wait to be handed out, in one queue for each bare address, first in, first out.
//!
//! [`Outboxes`] is seen as a `Boxes` (`specs/Boxes.antt`): the list of the notices that wait, in the order in which they were pushed, the bare
//! addresses for which room was made, those that are held apart from the others, and the room. The queue of an address is what that list has for its bare
//! address.
//!
//! - Nothing is shown before it is durable: [`Outboxes::peek`] and [`Outboxes::ready`] are given the number of entries that are, and show the
//!   first notice of an address only where the place of its entry is below that number.
//! - [`Outboxes::reserve`] makes room for an address, and [`Outboxes::hold`] takes memory too. With spare, a [`Outboxes::push`] can't be refused.
//! - An address that is held isn't ready: so who hands out notices may have several of different addresses in hand, and gives each back by
//!   [`Outboxes::release`]. Room for an address for which nothing waits is given up by [`Outboxes::forget`].
//! - A push, a peek and a drop go to the queue of their address by its digest (`ps_rows`). The next ready address of a host is found among those with room
//!   that aren't held. If notices were pushed in the order of their entries and the first one to the host isn't durable, none is: then no address is looked at.
//! - [`first_in_first_out`] is the law on the queues: a push adds to the end of its own queue, a drop takes from the front of its own, and no
//!   other queue changes.
#![tactic(auto)]

mod asks;
mod boxes;
mod kept;
mod laws;

pub use boxes::Outboxes;
pub use laws::first_in_first_out;
