//! The commands of the program, by their words: [`read_command`] takes those after the program's name, and answers the [`Command`] that they are.
//!
//! The grammar stands in `specs/Words.antt`, as `command_of`. The words to serve, to rehearse and to compact are those of ps_args (`of_first`). There are five
//! forms more, with words in exactly this order:
//!
//! - `explain PATH ADDRESS SERVICE NODE` and `readers PATH SERVICE NODE`: ADDRESS is any address, SERVICE one without a resource (`service_of`), a host or
//!   an account; PATH and NODE are not empty.
//! - `feed PATH FROM OUT`: PATH and OUT are not empty and differ, FROM is 1 to 20 digits, below 2^64.
//! - `follow HOST FEED IN OUT`: HOST is a host, and becomes lower case; FEED, IN and OUT are not empty and differ (`are_three`).
//! - `mirror SERVICE NODE ADDRESS MAX IN`: SERVICE, NODE and ADDRESS as for `explain`, MAX is 1 to 4 digits, from 1 to 1000 (`items_in`), IN is not empty.
//!
//! A command comes exactly where `command_of` has it, `Usage` only where it has none; out of memory may come in place of either. What a caller has of
//! each command stands in `specs/Well.antt`, as `IsWell`: addresses are addresses, a feed is not the source of lines, and what ps_args says of the first three.
#![tactic(auto)]

mod addresses;
mod command;
mod follower;
mod mirror;
mod reports;
mod words;

pub use command::{Command, ExplainWords, FeedWords, FollowWords, MirrorWords, ReadersWords};
pub use words::read_command;
