//! What a mirror takes, holds and reports, seen from outside: a table of lines, walked by one test.
//!
//! The test stands apart since each crate is proved once more with its own. Nothing stands on this crate, and it has no public function.
#![tactic(auto)]

#[cfg(test)]
mod notices;
#[cfg(test)]
mod table;
