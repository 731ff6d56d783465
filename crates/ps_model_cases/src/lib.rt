//! Worked cases: what the definitions of `ps_model` say of some lists of lines, computed on them.
//!
//! Each function here has an empty body, and its contract is the case. So a definition that says something else doesn't pass the check. Nothing stands on this
//! crate.
//!
//! The words of `specs/`: `Case.Holds given told` says of a list of stanzas, whose printed lines come one after the other from the first boot on, that they get
//! exactly the replies that `given` names and make exactly the entries that it marks, and that of these entries each address is handed exactly its part of
//! `told`. `Running` is the service in it: the model's own steps. `Words`, `Denials`, `Forms` and `Handed` are stanzas, replies and notices in short; the stanzas of each
//! case stand in the files `..Cases`.
//! `Compacted` and `Crashed` go on from entries of these.
#![tactic(auto)]

mod access;
mod capabilities;
mod collections;
mod conditions;
mod discovery;
mod home;
mod limits;
mod lines;
mod nodes;
mod notices;
mod owners;
mod presence;
mod stores;

pub use access::{approval_is_asked, refusal_is_told, subscribers_publish, whitelist_in_order};
pub use capabilities::{exact_answer_counts, example_hash, repeated_feature};
pub use collections::{collections_stay, deep_notice, near_notice, new_node_is_told};
pub use conditions::{
    bad_addresses, bad_requests, denied_approvals, no_room, unsupported_by_collections,
};
pub use discovery::{entities_say_what_they_are, nodes_and_items_are_listed};
pub use home::{last_item, roster_groups, wanted_items};
pub use limits::greatest_numbers;
pub use lines::{bad_lines, first_lines};
pub use nodes::{
    bookmarks_are_kept, configuration_shown, item_denials, item_ids, last_owner, nodes_are_found,
    numbers_and_names, other_subscribers,
};
pub use notices::{
    each_address_once, each_kind_is_told, item_is_handed, retraction_on_request, told_while_present,
};
pub use owners::{
    affiliations_are_listed, cancelled_form, options_are_kept, subscriptions_are_set,
};
pub use presence::{absent_is_not_told, verified_is_not_asked};
pub use stores::{compacted_rows, compacted_store, sent_again, stamps};
