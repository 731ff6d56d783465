//! A rehearsal: stanzas that a seed gives are served on two streams in memory, by the workers of a real run, and counted.
//!
//! [`rehearse`] deals the stanzas of `ps_gen` to `a.example` and `b.example` (`ps_rehearse_lines`), serves both streams over an empty store in memory (`ps_hall_open`,
//! `ps_hall`, `ps_workers`), and answers the [`Numbers`] of what came of it. Nothing outside is touched.
//!
//! It promises (`specs/Rehearsed.antt`, `Rehearsed`) that there was such a run to its end: one lawful list of entries, which begins with a Boot and goes on with
//! what the two hosts made (`AreMade`), in which each stanza was answered at its place, and none found the store full; on each stream all was said that is owed
//! (`HasServed`), and the numbers are those of the list and of the words of both streams. Each stanza comes at the moment 0 (`StillClock`).
//! However the two streams interleaved, the numbers are those of the seed's stanzas one after the other at an empty service (`AreNumbers`, and `rehearsal` of
//! `ps_rehearse_laws`), so each rehearsal of a seed and a count that answers has the same numbers.
//!
//! The one refusal is out of memory. Streams and disks in memory fail in no other way, so what a fault of theirs leaves is refused as that.
#![tactic(auto)]

mod clock;
mod entries;
mod laws;
mod numbers;
mod rehearsing;
mod running;
mod streams;

pub use clock::StillClock;
pub use laws::each_run_has_the_numbers;
pub use numbers::Numbers;
pub use rehearsing::rehearse;
