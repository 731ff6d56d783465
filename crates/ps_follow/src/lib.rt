//! A follower of a service: it takes the service's entries from a feed, and answers what changes nothing.
//!
//! `specs/Feed.antt` of ps_follow_laws says what a record is, and how far a feed is good (`Fed`); `specs/Answer.antt` there says what a follower answers. The laws there say that pieces,
//! repeats and cuts take nothing away, and that a follower of one lawful list has its first entries.
//!
//! [`put_record`] writes the record of an entry. [`Follower::feed`] takes a piece of a stream: what came of the whole stream is what `Fed` says of its bytes, at once or in pieces
//! (`specs/Followed.antt`: `IsAt`, `GoesOn`, and `IsStuck` where the stream is refused, by the cause of `RefusedAs`). A refusal is answered again until [`Follower::cut`], which begins a new stream and
//! keeps the entries. [`Follower::answer`] answers a line at the entries taken (`specs/Answering.antt`), by a service of ps_core, and refuses what would commit.
#![tactic(auto)]

mod answering;
mod feeding;
mod follower;
mod records;
mod refusal;
mod taking;

pub use answering::FollowAnswer;
pub use follower::Follower;
pub use records::put_record;
pub use refusal::FeedRefusal;
