//! What forms mean to the service, seen from outside: forms of `ps_forms`, configurations and options of `ps_config`, verification strings of
//! `ps_caps`.
//!
//! The tests stand apart since each crate is proved once more with its own. Nothing stands on this crate, and it has no public function.
#![tactic(auto)]

#[cfg(test)]
mod capabilities;
#[cfg(test)]
mod configs;
#[cfg(test)]
mod forms;
#[cfg(test)]
mod tests;
