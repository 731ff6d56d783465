//! The program as a function: [`run`] takes the words of a command and a world, and answers how it ended.
//!
//! It opens the store, then the source, the sink and the clock of each of 1 to 16 streams, serves them all at once, each by a reader and a writer of its own
//! (`ps_workers`), gives all back, and reports how it ended. [`Status`] has the code and the report.
//!
//! A contract says, of every world that tells its content (`specs/Runs.antt`): where the streams were served (`RanServing`), what `specs/Headline.antt`
//! says. `HasOneList`: there is one list of entries, lawful, which begins with the entries of the store and a Boot; a crash leaves a front of it that has all
//! that is durable, and a crash at any moment since the run's start a front that has all entries of the store, or what one before could have left.
//! `ServesStream` (of ps_workers), for each stream: its lines that came are the first of its source, each answered at its place, no older than the stream's earlier ones; its sink has a front of
//! their replies, and of each address's notices just those after the ones that were recorded before; what was written rests on durable entries; and so it
//! reads, the replies and the other stanzas to each address told apart by the bytes of the sink (`ReadsBack`). `IsAllSaid`: nothing is left to say, but for a
//! fault of the disk, where the stream's writer finished. `HasEnded`: the cause of each status.
//!
//! Where no line came (`RanIdle`) the entries of the store stand, with or without the Boot, but for a fault of the disk. Where an opening failed, or memory ran
//! out before the store was touched, nothing has changed (`Untouched`).
//!
//! A rehearsal (ps_rehearse) is a run of two streams in memory, of which five numbers are reported; `specs/Numbers.antt` has their lines, `specs/Came.antt` what
//! is told of each command (`IsTold`). It touches nothing of the world but its reports.
//!
//! Compacting (ps_compact) opens two stores, and writes what the one comes to as rows into the other: `specs/Compacting.antt` (`Compacts`). The other commands
//! are calls of ps_audit_command, ps_follow_command and ps_mirror_command, whose promises `specs/Did.antt` brings together.
//!
//! `specs/Ends.antt` says which cause of the workers comes first, `specs/Room.antt` when a store is full for an entry that ends a run, `specs/Crashes.antt` what a crash leaves,
//! `specs/Outside.antt` of ps_status what a world tells.
#![tactic(auto)]

mod compacting;
mod ends;
mod serving;
mod storing;
mod telling;
mod whole;

pub use ps_args::{Stream, WordsRefusal};
pub use ps_commands::{Command, read_command};
pub use ps_status::{Report, Status};
pub use whole::run;
