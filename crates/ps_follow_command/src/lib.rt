//! The commands of a follower, in a world: [`feed_store`] writes the records of a store's entries to a sink, and [`follow_feed`] takes such records from a
//! source and answers the lines of another.
//!
//! Both open what their words name, let ps_follow_run do the work, and give all back. `specs/Feeding.antt` says what feeding does to a world (`Feeds`): the
//! store is read as an audit reads it (`HasRead`), and keeps its entries; the sink gains the records of the entries from a place on, or a front of them
//! (`FedOut` of ps_follow_run). `specs/Following.antt` says what following does (`FollowsIn`): what was taken of the feed, at which of its entries each line
//! is answered, what the sink has, and why the run ended, as `Follows` of ps_follow_run says it. Nothing else is touched.
#![tactic(auto)]

mod feeding;
mod following;

pub use feeding::feed_store;
pub use following::follow_feed;
