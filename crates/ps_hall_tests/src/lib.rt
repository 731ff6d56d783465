//! Tests of `ps_hall` and `ps_hall_open`: a store in memory is opened, served by the hall's calls, closed, and opened again.
//!
//! They stand in a crate of their own, since a crate with tests is proved twice. Nothing stands on this crate, and it has no public function.
#![tactic(auto)]

#[cfg(test)]
mod calls;
#[cfg(test)]
mod limits;
#[cfg(test)]
mod lines;
#[cfg(test)]
mod lives;
#[cfg(test)]
mod opened;
