//! What `ps_compact_codec`, `ps_compact_export` and `ps_compact` make, seen from outside: rows as trees and read again, the rows of
//! tables as entries, and stores compacted, stopped after each call of the disk.
//!
//! The tests stand apart since each crate is proved once more with its own. Nothing stands on this crate, and it has no public function.
#![tactic(auto)]

#[cfg(test)]
mod compacting;
#[cfg(test)]
mod rows;
#[cfg(test)]
mod trees;
