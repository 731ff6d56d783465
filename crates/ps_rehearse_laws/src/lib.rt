//! What a rehearsal reports does not depend on how its two streams interleave.
//!
//! A rehearsal deals stanzas by a seed to two hosts in turn (`ps_gen`). `specs/Rehearsal.antt` says what its five numbers are: the stanzas arrive one after the other, in the order of
//! their places, at an empty service (`rehearsal`), and what the model answers is counted. `specs/Runs.antt` says what a run leaves, in which the two streams interleave in any way
//! (`HasRehearsed`): one lawful list, of each host the lines that came and the words that were said, all of them. `specs/Laws.antt` has the law, `EachRehearsalHasTheNumbers`: the numbers
//! that are counted over such a run (`reported`) are those of the rehearsal.
//!
//! Why it holds: a stanza of one host asks about nodes of that host alone, and in the name of accounts of that host. So it reads and changes the rows of these nodes (`Part`), and leaves
//! those of the other host's nodes as they were; and what it gives goes to accounts of its host.
//!
//! Not covered: the order of replies and notices of different hosts; their places in the list; how the stanzas come to a reader, and how what is said comes to a sink.
//!
//! `EachLogGrowsByItsHosts` and `EachWordIsToItsHost` say that two of the things which are asked of a run hold of every list of deeds (`ps_trace`).
//!
//! Each function here has an empty body: its contract is the law.
#![tactic(auto)]

mod laws;

pub use laws::{each_log_is_of_its_hosts, each_rehearsal_has_the_numbers};
