//! What trees mean to the service, seen from outside: the requests of `ps_request`. Its replies are compared byte for byte by `tests/lines`.
//!
//! The tests stand apart since each crate is proved once more with its own. Nothing stands on this crate, and it has no public function.
#![tactic(auto)]

#[cfg(test)]
mod requests;
