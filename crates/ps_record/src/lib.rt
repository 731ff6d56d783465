//! Entries of the journal as bytes, both ways, and batches of them.
//!
//! `specs/Entries.antt` of ps_model says which entries have a spelling and which bytes it is. [`put_entry`] writes it, and [`read_entry`]
//! reads an entry exactly where one is spelled: the host, address or tree that it reads is one whose printed form stands there, and what
//! is printed otherwise is refused. [`print_of`] is the one text in an entry that takes work (`specs/Texts.antt`), for those who measure it
//! first. [`one_entry`] is the law that bytes begin with one entry at most.
//!
//! A [`Batch`] is a list of entries with the bytes of their frame: the length, the entries, and a closed gate (`specs/Batch.antt`). Many entries become one
//! by [`Batch::of`], which finds out itself whether their prints are short enough for a spelling (`specs/Formed.antt`).
#![tactic(auto)]

mod batch;
mod bodies;
mod fields;
mod laws;
mod raw;
mod reading;
mod roll;
mod writing;

pub use batch::Batch;
pub use bodies::{BatchRefusal, MAX_BYTES};
pub use laws::one_entry;
pub use raw::u32_at;
pub use reading::{EntryRefusal, is_moment, read_entry};
pub use writing::{print_of, put_entry};
