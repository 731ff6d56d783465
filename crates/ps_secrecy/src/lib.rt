//! Secrecy: what an address may not read it cannot learn from the replies and the notices that it gets, nor from the order and the numbers of these, before and after any crash.
//!
//! Two worlds are compared for a list of nodes that `read` denies a bare address. `ps_model`'s `TwoWorlds.SameBut` says that they differ in nothing else than the items of these
//! nodes, and the numbers of ids that other addresses got there. A pair of steps is equal in both, or two lines of others for the items of one of these nodes (publish, retract, purge).
//!
//! `specs/Laws.antt` has the laws. Of one step: `EachReplyIsSecret`, `EachLineIsSecret`, `EachPairIsSecret` and `EachEntryIsSecret` say that the reply to the address is the same,
//! that the worlds look alike afterwards (`Alike.LookAlike`), and that the notices which it hears are equal in address, number and line. Of whole runs with crashes: `EachRunIsSecret`
//! says that after as many steps the address got the same of both worlds, byte for byte (`Seen.GetsTheSame`). `Runs` says which runs are compared, `Deeds` what an entry does.
//!
//! Not covered: that a node stands, its configuration and its rows; time; what other addresses hear; a journal that is full in one world alone.
//!
//! Each function here has an empty body: its contract is the law.
#![tactic(auto)]

mod laws;

pub use laws::{each_entry_is_secret, each_line_is_secret, each_run_is_secret};
