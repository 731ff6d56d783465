//! The workers of all streams of a hall, beside one another, and what is told of the end.
//!
//! [`serve`] has a reader and a writer for each host of a hall (`ps_hall`), each in a thread of its own: the reader takes the lines of the host's source and
//! has the hall answer them, the writer writes what the host is told to its sink (`ps_streams`). Once all have ended it closes the hall, writes the entries
//! that still wait unless the disk has failed, and gives back the state, the store and each stream with the causes of its two ends. Its lists are those of a
//! [`WorkRoom`], so only a worker can be refused memory.
//!
//! What it promises (`specs/Headline.antt`, `Serves`) is told of the world at the end and of what each source, clock and sink told before and after, and of
//! nothing between:
//!
//! - The list of entries is lawful and begins with what the store had and a Boot. A crash leaves a front of it that has all durable entries, each with a
//!   spelling; where nothing failed the store has all of it.
//! - `ServesStream`: the lines of a stream stand in the list in their order, each answered at its place; its sink has a front of their replies, and of each
//!   address's notices those after the ones that were recorded before, all that are recorded since and at most one more; `IsAcknowledged`, all that was written
//!   rests on durable entries; `EachIsFull`, a line that found no room finds none behind whatever a crash may leave that has the line's place, and
//!   `AreFull`, none behind the length that the state reckons with; `HasCauses`, why its workers ended, by its objects.
//! - `HasReasons`: why they ended, by the state and the store at the end. So a worker's word for its cause is enough.
//! - `ReadsBack`: where the disk and the sink tell, the replies that stand in the bytes that the sink has gained are a front of those of the lines, and the other
//!   stanzas to each address of the host are just those notices. Each of both is one line.
//! - `IsAllSaid`: where no worker met a fault of the disk, nothing is left to say or to record for a stream whose writer finished; its sink has all (`ReadsWhole`).
//! - An address of a host that is not served keeps its notices.
//!
//! `specs/Told.antt` has the words for a host's lines, `specs/Sinks.antt` those for the bytes of its sink, `specs/Working.antt` what one worker is given and
//! makes, `specs/Teams.antt` the workers of all hosts, `specs/Closing.antt` what the state and the store are at the end.
//!
//! Nothing is promised of waiting: not that a worker comes to its end, nor when. Where the system refuses a thread no worker begins: each
//! writer ends with `Memory`, each reader with that or with the cause for which its Gone was refused.
#![tactic(auto)]

mod closing;
mod muster;
mod serving;
mod work;

pub use ps_hall::{EndCause, Hall, NoHall, Opening};
pub use ps_hall_state::{Limits, State};
pub use ps_streams::ReadEnd;
pub use serving::{Ended, WorkRoom, serve};
