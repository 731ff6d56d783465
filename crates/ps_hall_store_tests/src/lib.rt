//! What a store keeps, seen from outside: disks of `ps_disk`, entries and batches of `ps_record`, journals of `ps_journal`, and the worlds of
//! `ps_io` that have them by names.
//!
//! The tests stand apart since each crate is proved once more with its own. Nothing stands on this crate, and it has no public function.
#![tactic(auto)]

#[cfg(test)]
mod disks;
#[cfg(test)]
mod entries;
#[cfg(test)]
mod stores;
#[cfg(test)]
mod worlds;
