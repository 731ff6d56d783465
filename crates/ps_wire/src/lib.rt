//! Lines and trees at the edge of the program: where bytes come from, where they go, what a line of them is, and which
//! tree a line is.
//!
//! [`Source`] and [`Sink`] are the two ends. Each has a count of faults that never falls, and a call answers `Failed` only
//! where that count rose. A source may tell the bytes still to come, and a sink those written so far. [`MemSource`] and
//! [`MemSink`] stand in memory and fail at the calls that they are given; [`FileSource`] and [`FileSink`] stand over files
//! and tell nothing of content.
//!
//! [`Lines`] gives the lines of a source in order. `first_line` and `after_line` of `ps_types`' `specs/Lines.antt` say which
//! bytes an answer has and leaves; `specs/Reading.antt` names what a contract sees of the reader and says when it refuses.
//! [`write_line`] writes a line whole, or a front of it and its newline. The laws of lines stand on the contracts of
//! `lines_go_on`, `written_in_one_way` and `written_lines_read_back`.
//!
//! [`read_tree`] takes exactly the texts that `Reads` of `ps_types`' `specs/Reading.antt` calls trees, and `specs/Answer.antt`
//! says of every other text why it is refused. [`print_tree`] writes the one compact text of a tree, which reads as that tree.
#![tactic(auto)]

mod files;
mod held;
mod laws;
mod line;
mod lines;
mod memory;
mod print;
mod read;
mod streams;
mod writes;

pub use files::{FileSink, FileSource};
pub use laws::{lines_go_on, written_in_one_way, written_lines_read_back};
pub use lines::{Lines, LinesRefusal, NextLine, NextLineRefusal};
pub use memory::{MemSink, MemSource};
pub use print::print_tree;
pub use ps_base::{Bytes, Failed, Memory};
pub use read::{TreeRefusal, read_tree};
pub use streams::{Sink, Source};
pub use writes::{WriteFault, write_line};
