//! Tests of `ps_hall_state`: lines, notices, flushes and ends over a state in memory, with one host, as tables.
//!
//! They stand in a crate of their own, since a crate with tests is proved twice. Nothing stands on this crate, and it has no public function.
#![tactic(auto)]

#[cfg(test)]
mod calls;
#[cfg(test)]
mod lines;
#[cfg(test)]
mod opened;
#[cfg(test)]
mod rows;
#[cfg(test)]
mod tests;
