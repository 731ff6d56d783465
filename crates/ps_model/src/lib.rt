//! What the service means: definitions that every contract above cites, with laws that are proved of them.
//!
//! `docs/model.md` walks through `specs/` in an order in which one can check them against the XEPs. The words that contracts
//! above use most: `Book` and `State` (what the service holds), `taken` (what a line is), `check` (whether a request is accepted), `changed` (what it does
//! to the Book), `commits` (whether it makes an entry), `reply_to` and `entry_of` (what a line comes to), `after` and `replay` (what entries leave),
//! `notices` (who is told), and `world` (the machine of steps).
//!
//! Each function here has an empty body: its contract is a law. Worked cases are computed on the definitions in `ps_model_cases`.
#![tactic(auto)]

mod access_laws;
mod laws;
mod machine_laws;
mod request_laws;
mod steps;
mod store_laws;
mod stream_laws;

pub use access_laws::{nodes_stay_bounded, outcast_is_forbidden};
pub use laws::{
    lawful_at_each_place, lawful_prefix, nobody_missed, notices_grow, numbers_rise,
    only_readers_hear, replay_goes_on,
};
pub use machine_laws::service_keeps_the_laws;
pub use request_laws::{
    address_is_spelled, line_is_read, line_reads, one_request, spelled_is_taken, taken_is_spelled,
};
pub use steps::{Role, Step};
pub use store_laws::{damaged_has_none, list_or_damage, one_damage, one_list};
pub use stream_laws::sink_has_what_is_said;
