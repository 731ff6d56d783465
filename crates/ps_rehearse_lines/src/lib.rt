//! What a rehearsal needs beside its run: the lines that its two streams read, and the numbers of the lines that were written.
//!
//! [`deal`] prints the stanzas of `ps_gen` on the streams of their two hosts, `a.example` and `b.example`, each in the order of its places
//! (`specs/Dealing.antt`, `AreDealt`): a stanza a line, which reads back as that stanza.
//!
//! [`count_lines`] counts, of the whole lines that were written to a sink, the iqs of type result, those of type error, and all other stanzas
//! (`specs/Counted.antt`, `AreCounts`).
#![tactic(auto)]

mod counting;
mod dealing;
#[cfg(test)]
mod tests;

pub use counting::{Counts, count_lines};
pub use dealing::{Dealt, deal};
