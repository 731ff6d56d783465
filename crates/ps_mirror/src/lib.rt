//! A subscriber's copy of a node, from the lines that it was handed.
//!
//! The service tells an address of a node's items in messages (XEP-0060 §7.1.2, §7.2.2, §8.5), and numbers what it tells an address by their ids: `n-1`, `n-2`, and so on. After a crash it may
//! tell again what it told. A [`Mirror`] takes lines one by one ([`Mirror::take`]): one whose number isn't above the greatest so far changes nothing, an item goes last and the oldest go where there
//! are too many, a retracted item goes, and a purge takes all. [`run_mirror`] takes all lines of a source, and reports the items, each printed by [`item_line`].
//!
//! `specs/Copy.antt` says which lines tell a copy something (`news_in`), and what a copy holds after a list of lines (`copy`). A contract sees a mirror as `Mirrored` of `specs/Mirrored.antt`.
//! `specs/Report.antt` says what comes of a source: `RanMirror`, which rests on `IsReport`, the report is that of the copy of its lines, but for those of more than 262,144 bytes.
//! That a copy holds just the node's items is a law of ps_mirror_laws.
#![tactic(auto)]

mod copied;
mod fill;
mod lines;
mod mirror;
mod news;
mod numbers;
mod reading;
mod report;
mod run;
mod said;
mod trees;

pub use copied::Copied;
pub use mirror::{Mirror, Taken};
pub use report::item_line;
pub use run::{MirrorRun, run_mirror};
pub use said::{News, Said};
