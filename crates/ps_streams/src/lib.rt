//! The workers of a stream, each in a thread of its own over the shared hall (`ps_hall`).
//!
//! [`read_stream`] takes the lines of its source one after the other, asks a clock for the moment of each, and has the hall answer it. It makes durable what
//! it laid before it waits, for its source or for room for a reply, and behind the last line: so lines that come together share a frame. In the end, for whatever
//! cause, it says that the host's callers are gone. What it promises (`specs/Reading.antt`): `StreamRead`, the arrivals that its pass brought are those that
//! the source gave, in order, each with the moment that the clock told, of which the last alone may be missing, and none where the source ended it; where that
//! failed or gave all that it may, each line that a newline ended came; all that it laid was flushed before it said that its reader has ended, but after a
//! fault of the disk; `SaidGone`, `FoundClosed` and `FoundOver` go with its causes.
//!
//! [`write_stream`] asks the hall for what its host is to be told and writes each reply and each notice as a line to its sink. It records the notices that it
//! wrote many together: after a run of so many lines or bytes, and before it waits. At the end it says that the writer has ended; where a Record finds no room
//! the hall has said so.
//!
//! What it promises is told of what its pass saw and of what the sink was given (`specs/Speaking.antt`): `Speaks`, the words that the pass said are
//! those that were written, each whole but for one at a cut, and of no notice is there a Record that was not written whole; `EndsOnce`, it says last and once
//! that the writer has ended; `IsWriterDone`, at the end of its own accord it found before that all was said and no reader ran; `HadNoRoom` goes with a
//! Record that found no room; `FindsLanded`, each Record that it made is flushed, but after a fault of the disk.
#![tactic(auto)]

mod idle;
mod put;
mod read;
mod write;

pub use read::{ReadEnd, read_stream};
pub use write::write_stream;
