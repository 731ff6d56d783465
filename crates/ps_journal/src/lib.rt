//! The journal of the service: a list of entries on a disk, from which no crash takes what was acknowledged.
//!
//! A store is a header, frames of entries, and a closed gate; `specs/Store.antt` of ps_model says which list its bytes spell.
//! [`Journal::open`] judges the bytes, begins an unbegun store and upgrades one of version 1; [`Journal::append`] writes a frame behind
//! the closed gate, syncs, opens the gate, and syncs again. [`look`] judges the bytes and writes nothing. Their contracts speak of every moment of the call, over every disk that tells
//! its content: a crash leaves the entries before, or those and the whole batch, and once `append` has answered Ok it leaves the batch.
//! Entries are given to a [`Taker`] one after the other, as they are read ([`Journal::open_giving`], [`look_giving`]), and none is kept; a contract names those
//! that were given by a [`Trail`], a list that takes no memory. A taker may refuse one: the store isn't opened then, and its bytes stay.
//! A store is opened in pieces of a mebibyte, or of a frame where one is longer (`pieces.rt`), so that a long one takes no more memory than
//! the taker does.
//! After a fault of the disk the journal answers `Store` for good, and the store is opened again.
//!
//! `specs/Judged.antt` says where a store is damaged, `specs/Left.antt` what a crash leaves of a journal, and `specs/Journal.antt` what
//! contracts see of a [`Journal`]. The functions of `laws.rt` are laws: bytes spell one list at most, and damaged ones none.
#![tactic(auto)]

mod beginning;
mod frames;
mod journal;
mod judging;
mod laws;
mod listing;
mod loading;
mod opening;
mod pieces;
mod reading;
mod taker;
mod trail;
mod upgrading;
mod writing;

pub use journal::{AppendRefusal, EntriesRefusal, Journal, JournalRefusal};
pub use judging::{Placed, Verdict, judge};
pub use laws::{damaged_spells_nothing, one_damage, one_list, unbegun_spells};
pub use opening::{JournalWhy, look, look_giving};
pub use taker::Taker;
pub use trail::Trail;
