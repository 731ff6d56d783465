//! What the hall has under its lock, and how that becomes durable.
//!
//! A `Twin` (`ps_twin`) has two values in a slot each: the state (`ps_hall_state`) in a [`Home`], and the store (`ps_hall_store`) in an [`Archive`]. Both stand for one
//! list of deeds (`ps_trace`), the steps of the machine, each with the pass that made it; the store for a beginning of what the state stands for. The mark
//! that the two have in common counts the entries and bytes of all frames that were begun, and tells whether the disk has failed. A caller has a seat, which
//! knows what it has seen.
//!
//! - [`flush_seat`] makes durable all that a seat has seen: the entries that wait are taken out of the state as one frame, which is written while others go on
//!   with the state, and in a later holding the Flush is added, or the Broken where the disk failed. Where others have made it durable no frame is written.
//! - [`frame_of`] takes the entries that wait out of the state, as a frame.
//! - [`read_seat`] reads the entries of all frames again, with the store in its hands.
//!
//! - `specs/Origin.antt`: what stood when the hall was opened, which [`Opening`] names. `specs/Homes.antt`: when the two values stand for a list of deeds;
//!   each deed tells how long the store was then, and of a line that found no room each value keeps how long it was at most (`AreMeasured`).
//! - `specs/Seat.antt`: what a seat has in hand, and what it may give back.
//! - `specs/Doing.antt`: `Passes`, others added deeds; `Does` and `Adds`, and then the pass its own. `specs/Flush.antt`: `Flushes`, all that the pass
//!   had seen is durable; `NotFlushed`, the disk failed. `specs/History.antt`: the entries as they are read again.
//!
//! Nothing is promised of waiting.
#![tactic(auto)]

mod flush;
mod home;
mod leaving;
mod reading;

pub use flush::{FlushRefusal, flush_seat, frame_of};
pub use home::{Archive, Home, Opening};
pub use ps_journal::EntriesRefusal;
pub use reading::read_seat;
