//! Who is told of an event, and by what stanza.
//!
//! [`notices`] gives what an event hands to each address: the model's `given` (`ps_model`, `specs/Given.antt`) over the Book that the tables are seen
//! as, for the addresses that get something, in the order of the octets of their printed form (`specs/Told.antt`). It asks those alone that have a
//! row on the node or on a collection above it, and the resources that want the node of an account: nobody else is given anything, which is part of
//! what is proved. Of an event of a node, [`notices`] works out once what does not depend on the address (`specs/Hearing.antt`): the node, the
//! collections above it, the configuration that decides, and the `event` of the stanza.
//!
//! [`stamp`] is the text of a moment, which a last item carries (XEP-0203).
#![tactic(auto)]

mod asked;
mod fanout;
mod hearing;
mod last;
mod laws;
mod moments;
mod news;
mod order;
mod parts;
mod reading;
mod single;
mod trees;
mod wanting;
mod ways;

pub use fanout::{drafts, notices};
pub use laws::{one_event_is_told, those_asked_suffice};
pub use moments::{stamp, stamp_is_utc};
pub use order::in_order;
