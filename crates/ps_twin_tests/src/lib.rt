//! A diary and its journal under a `Twin`: how the two values of a twin are used, with several threads.
//!
//! Each seat writes entries into the diary, and flushes it now and then: it takes the journal, notes in the diary up to where the journal will
//! go, gives the diary back so that others go on writing, notes the same in the journal, and gives it back. Only then does it say in the diary
//! that these entries are firm. Nothing stands on this crate.
#![tactic(auto)]

mod diary;
mod writing;

pub use diary::{Diary, Entry, Journal};
pub use writing::{flush, write, write_all};

#[cfg(test)]
mod tests;
