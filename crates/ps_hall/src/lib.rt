//! The hall: the service over its store, shared by the readers and the writers of all hosts, each in a thread of its own.
//!
//! A [`Hall`] has a `Twin` (`ps_twin`) of two values (`ps_hall_flush`): the state in a [`Home`], and the store in an [`Archive`]. Each caller has a
//! [`Pass`], which names its host, and whose seat knows what the caller has seen. A reader's calls are [`Hall::lay`], of one line, and
//! [`Hall::flush`] behind one or several; [`Hall::arrive`], which is both for one line; and [`Hall::gone`]. A writer's are [`Hall::next`], [`Hall::handed`], which
//! records a run of notices, and [`Hall::writer_ended`]. Between calls either may [`Hall::rest`], until the bell of its host rings or a time is over. While one
//! caller writes a frame, which may have the entries of many, the others go on with the state; a caller whose entries are durable then writes no frame.
//!
//! Both values stand for one list of deeds (`ps_trace`): the steps of the machine, each with the pass that made it. What a call promises is told by what its
//! pass had seen before and has seen since (`specs/Calls.antt`): what others had added, and then the steps that the call made, of which the answer tells at
//! the world that the call found. So no clause speaks of the state before and after, which other callers change.
//!
//! - Of `ps_hall_flush`: `Origin`, what stood when the hall was opened, which [`Opening`] names; `Passes`, others added deeds; `Does` and `Adds`, and then the pass
//!   its own; `Flushes`, all that the pass had seen is durable; `NotFlushed`, the disk failed; `HasHistory`, the list of entries as it is read again.
//! - `specs/Calls.antt`: `IsReader` and `IsWriter`, whose pass it is; `HandAt`, what a writer has in hand, notices of different addresses; `LayDoes`, `NextDoes`, `RecordDoes` and `GoneDoes`,
//!   the steps of one holding by its answer, with the cause of each refusal; `Arrived`, `HasHanded` and `HasGone`, whole calls; `FoundOver`, that a deed tells
//!   how long the store was where an entry found no room.
//! - `specs/Start.antt`: what a hall is opened over. `specs/Passes.antt`: the passes of all hosts, from [`Hall::new`] to [`Hall::close`].
//! - `specs/Closed.antt`: what the two values say together once all passes are back, and that a line which found no room finds none behind what a crash leaves.
//!
//! Nothing is promised of waiting: not that a caller's turn comes, nor when.
#![tactic(auto)]

mod answers;
mod arrive;
mod bell;
mod closing;
mod ending;
mod gone;
mod hall;
mod handed;
mod history;
mod leaving;
mod next;
mod opening;

pub use answers::{EndCause, Next};
pub use hall::{Hall, HostPasses, Pass};
pub use opening::NoHall;
pub use ps_hall_flush::{Archive, FlushRefusal, Home, Opening};
pub use ps_hall_state::{ArriveRefusal, HandedRefusal, Limits, Outcome, Receipt};
pub use ps_journal::EntriesRefusal;
