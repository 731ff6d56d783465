//! A follower and a feed run over sources and sinks.
//!
//! [`Records`] are made of a store's entries as they come, and [`run_feed`] writes them to a sink (`specs/Feeding.antt`). [`run_follow`] takes a feed, answers the lines of an input at the entries taken, and writes the
//! replies to a sink: `specs/Following.antt` says which bytes of the feed stand before each answer, what the sink has gained, and why the run ended (`Follows`).
//! `specs/Laws.antt` has the law that ties it to another service: where the feed is of one lawful list, each answer is given at a front of it, and no answer behind an earlier one.
#![tactic(auto)]

mod ends;
mod feeding;
mod following;
mod laws;
mod lines;
mod pieces;
mod room;
mod writing;

pub use ends::FollowEnd;
pub use feeding::{FeedEnd, Records, run_feed};
pub use following::{Followed, run_follow};
pub use laws::each_answer_is_of_the_feed;
