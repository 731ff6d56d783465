//! Compaction: a new store that begins with rows, in the place of the entries that led to them, and serves on as the old one would.
//!
//! [`compact`] reads a store and takes its entries, and writes what they leave as a new one: the rows of the Book, how many notices were handed to each
//! address, and the notices that aren't handed, in the order of the model's `Base.base`. The old store is read and synced, and nothing is written to it. All entries of the
//! new one go into one frame, so a crash leaves none of them or all.
//!
//! `specs/Compacted.antt` says what comes of it: the list of the old store and that of the new one, of which the law of ps_compact_laws says that it serves on as
//! the other would (`ServesOn`), and each answer with its cause. Numbers of 2^62 and more can't stand in a row. No service reaches such a count of ids or of handed
//! notices; a store that was written by hand may begin close to one, and is answered as one for which there is no memory once a count gets there.
#![tactic(auto)]

mod compacting;
mod counters;
mod listing;
mod queues;
mod writing;

pub use compacting::{CompactOutcome, Compacted, compact};
