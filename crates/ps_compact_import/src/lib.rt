//! Where the rows of a compacted store are accepted, and what each adds to the tables.
//!
//! A compacted store begins with rows, each accepted beside those before it. For each kind there is a call that says whether a row is accepted beside the tables and the numbers of
//! notices: it answers the model's `accepts_row` (ps_model, `specs/BaseAfter.antt`) at `state_at` of both (`specs/States.antt`). By [`accepted_by_rows`] that is so at each State with these
//! rows, whatever its count of entries and its lines. No such call goes through a table: each finds its rows by their digests.
//!
//! A second call adds the row: the Book of the tables afterwards is `book_with` of the row, and the numbers of notices are `tallies_after_row`. It makes room first, so where memory runs
//! out nothing has changed.
#![tactic(auto)]

mod asks;
mod depths;
mod holders;
mod items;
mod laws;
mod links;
mod nodes;
mod notices;
mod people;
mod rows;

pub use holders::{accepts_affil, accepts_count, accepts_sub, put_affil, put_count, put_sub};
pub use items::{accepts_item, put_item};
pub use laws::accepted_by_rows;
pub use links::{accepts_link, put_link};
pub use nodes::{accepts_node, put_node};
pub use notices::{accepts_counter, accepts_notice, put_counter, put_notice};
pub use people::{accepts_contact, accepts_ver, put_contact, put_ver};
pub use rows::{accepts_row, put_in_tables, put_row};
