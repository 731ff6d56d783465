//! Worked cases of two services, of two runs, and of many who have subscribed.
//!
//! Each function here has an empty body, and its contract is the case, computed on the definitions of `ps_model` in the words of `ps_model_cases`. Nothing stands on
//! this crate.
//!
//! The words of `specs/`: `Worlds.AreTwoWorlds` says of two lists of stanzas that each holds as a case of its own, that the two services stay alike to an address
//! that may not read a node, by the relation of `ps_model`, and that the address is answered and told the same. `WorldCases`, `RunCases` and `ManyCases` have
//! the stanzas.
#![tactic(auto)]

mod many;
mod runs;
mod worlds;

pub use many::forty_are_told;
pub use runs::{cut_off_notice, last_item_of_an_earlier_run};
pub use worlds::{commits_stay_unseen, evictions_stay_unseen, items_stay_unseen};
