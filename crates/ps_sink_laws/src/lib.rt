//! The law of a sink's lines: what was said can be told apart by reading it.
//!
//! A writer says replies and notices, `ps_trace`' `Word`s, and writes each as a line. `ps_model`'s `Streams` says what a sink has, read back from its bytes: `replies` are the lines that
//! read as an iq of type result or error, as another stanza of type error or as a refused line, and `notes` the lines that read as any other stanza to a bare address. `specs/Laws.antt` has
//! the laws: what a sink has of both are the replies and the notices that were said (`EachSinkIsToldApart`), and each is one line (`EachWordIsOneLine`, which asks no spelling of the entries).
//!
//! The premises (`AreGiven`): there is a list of entries that gives the words, a reply as the one to a line at some place of it, a notice as one that it has for the address; it is lawful, and
//! each of its entries has a spelling, as each entry of a store has. Of a run it is the list of the durable entries, on which all rests that was written. It may begin with the rows of a
//! compacted store: a notice among them is accepted only where its line is the print of a tree to its address which is no reply.
//!
//! Why it holds: `proofs/Reached` says that the Book at each place of the list is of texts and addresses, `ConfigTexts` that its configurations are, and `RowTexts` that those of rows are. So
//! `Replying` shows that each reply is a tree that reads back and is a reply, by the child that its result has (`Children`), and `Notes` that each notice is the print of a tree to its address
//! which is no reply; `RowNotices` says so of a row's notice.
//!
//! The function has an empty body: its contract is the laws.
#![tactic(auto)]

mod laws;

pub use laws::each_sink_is_told_apart;
