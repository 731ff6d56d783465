//! The words of a command: [`read_words`] takes those after the program's name, and answers the [`Command`] that they are.
//!
//! The grammar stands in `specs/Words.antt`, as `command_of`. There are three forms, with words in exactly this order:
//!
//! - `serve --service HOST --store PATH HOST IN OUT [HOST IN OUT]..` with 1 to 16 streams. A HOST is an address without a local part and a resource
//!   (`host_of`), and becomes lower case; after that all hosts differ, that of the service too (`are_hosts`). PATH, each IN and each OUT are not
//!   empty, and all of them differ as texts (`are_names`).
//! - `rehearse SEED COUNT`, both 1 to 20 decimal digits (`number_between`): SEED below 2^64, COUNT from 1 to 100,000.
//! - `compact PATH NEW`, two names that are not empty and differ (`are_two`).
//!
//! A command comes exactly where `command_of` has it, `Usage` only where it has none; out of memory may come in place of either. What a caller has of
//! each command stands in `specs/Well.antt`, as `IsWell`: the hosts are hosts as they are printed, there are 1 to 16 streams, and no two of them have
//! one host, one source or one sink; a store is not compacted into itself.
#![tactic(auto)]

mod addresses;
mod apart;
mod command;
mod digits;
mod refusal;
mod words;

pub use addresses::{read_address, read_host};
pub use apart::are_two;
pub use command::{Command, Stream};
pub use digits::number_between;
pub use refusal::WordsRefusal;
pub use words::read_words;
