//! The rows of a table in the order of their making, with indexes.
//!
//! [`Slots`] keeps rows in places, in the order of their making. A place of which the row has gone stays empty until places are packed,
//! so no row moves when another goes. For each [`Index`] it has the chains of the rows of one digest (`ps_chains`).
//! [`Rows`] is seen as a `Table` (`ps_base`, `specs/Rows.antt`): the list of the rows that stand, and its spare.
#![tactic(auto)]

mod address_rows;
mod around;
mod digests;
mod index;
mod newest;
mod node_rows;
mod row;
mod rows;
mod slots;
mod walks;

pub use digests::{
    bare_at_digest, bare_digest, item_digest, jid_at_digest, jid_digest, node_digest, pair_digest,
    text_digest,
};
pub use index::Index;
pub use row::{Ask, Change, Row};
pub use rows::Rows;
pub use slots::Slots;
pub use walks::{count_node, seek};
