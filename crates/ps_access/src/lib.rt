//! The tables of the service, and what the access rules say over them (XEP-0060 §4).
//!
//! [`Tables`] is seen as the model's Book by `book_of` (`specs/Tables.antt`). The four verdicts are the model's `read`, `subscribe`,
//! `publish` and `own` over that Book: the affiliation of an address at a node first, then the node's model. They take no memory, and
//! the node stands. `specs/Plans.antt` says how the plan of a request, which the crates above make, answers for the model's check of
//! it; what several kinds of request share, and what is done once they are accepted, is here: the steps of their checks, the forms that
//! configure a node ([`new_config`], [`config_given`]), the id of an item ([`item_id`]), what a subscription comes to ([`base_options`],
//! [`given_options`], [`new_state`]), the rows that an owner asks for ([`asked_affil_row`], [`asked_state`]), how rows are set
//! ([`set_asked_affils`], [`set_asked_subs`], [`set_state`], [`set_sub`]), and the trees that replies are made of ([`about`],
//! `specs/Replies.antt`).
#![tactic(auto)]

mod addresses;
mod asked;
mod contacts;
mod forms;
mod ids;
mod making;
mod replies;
mod resources;
mod setting;
mod steps;
mod subscribing;
mod tables;
mod verdicts;
mod words;

pub use addresses::{affiliation_of, is_account_address, is_account_of};
pub use asked::{asked_affil, asked_affil_row, asked_state};
pub use forms::{
    config_from, config_given, form_in, is_collection, is_submitted, is_unmoved, new_config,
};
pub use ids::item_id;
pub use making::{max_nodes, max_subs, must_be_collection, must_have_room};
pub use ps_types::{Rule, Verdict};
pub use replies::about;
pub use resources::has_caps;
pub use setting::{new_sub, set_asked_affils, set_asked_subs, set_state, set_sub};
pub use steps::{allow, key_of, must_be_leaf, must_stand, pass_if};
pub use subscribing::{base_options, given_options, new_state};
pub use tables::Tables;
pub use verdicts::{verdict_own, verdict_publish, verdict_read, verdict_subscribe};
pub use words::{affil_of, affil_text, sub_of, sub_text};
