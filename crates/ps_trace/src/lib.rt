//! The law that ties what the passes of one shared machine did to what the machine's rows tell.
//!
//! A pass is one of the two callers of a host: its reader or its writer. Each step that a pass makes is a [`Deed`] in one list, which also has the
//! number of that pass. The passes of the host at place `i` have the numbers `2i` (reader) and `2i + 1` (writer).
//!
//! It promises, of every service that keeps the machine's laws: where each deed is of the pass that may make it (`AreOwned`), what one pass did alone
//! tells which lines of its host came, in order, and what was said for its host. At any time that is a front of what the host is owed
//! (`what_is_said_is_a_front`); once all readers have ended and the host's writer found that all is said, it is all (`what_is_said_is_complete`).
//! This is logic over lists alone: no lock, no thread and no store is known here.
//!
//! The words of its specs:
//!
//! - `specs/Lines.antt`: `came` gives the lines of a host (`Came`) among steps, each with its place, reply and entry; `HasLines`: they are in the list.
//! - `specs/Words.antt`: `words` gives what steps say for a host, a line of its sink each (`Word`); `HasSaid`: the machine's rows keep just these.
//! - `specs/Own.antt`: `own_steps`, `words_by`: of one pass; `MayMake`, `AreOwned`: whose a step may be; `LaidWithin`: what a pass laid is flushed.
//! - `specs/Did.antt`: `Did`: what a pass did in one holding, by the lists that it has seen before and after; `Passed`: others alone did something;
//!   `IsKept`: all that the pass laid is flushed; `NoneInHand`, `HasInHand`: which notices to a host's addresses are in flight.
//! - `specs/Over.antt`: `ReaderDone`, `IsOver`, `WriterDone`: how a pass ends; `IsFront`, `IsComplete`: what was said for a host, beside what it is owed.
//! - `specs/Laws.antt`: the laws.
//!
//! Each function here has an empty body: its contract is the law.
#![tactic(auto)]

pub mod deed;
mod laws;

pub use deed::Deed;
pub use laws::{
    each_flush_keeps, each_other_host_rests, each_record_lands, each_run_has_lines,
    handed_hands_none, own_steps_are_its_hosts, what_is_said_is_a_front, what_is_said_is_complete,
};
