//! What the program does over worlds in memory: openings and reports that fail at each call of the world, and a store after a crash behind each call of its disk. What files and
//! pipes can show is tried on the program: `tests/lines`, `tests/operating`, `tests/faults`, `tests/streams`, `tests/rows`, `tests/compact`, `tests/mirror`.
//!
//! The tests stand apart since each crate is proved once more with its own. Nothing stands on this crate, and it has no public function.
//!
//! Words of the specs: `NoneOpen`, no object of a world is open (`specs/Fresh.antt`).
#![tactic(auto)]

#[cfg(test)]
mod faults;
#[cfg(test)]
mod lines;
#[cfg(test)]
mod stores;
#[cfg(test)]
mod worlds;
