//! The state as one of the two values that the callers share: the service, what waits for the writers of its hosts, and the entries that wait to
//! be written.
//!
//! A [`State`] knows neither a disk nor a journal. Each of its calls is one step of the machine that `ps_model` defines, on `&mut`: [`State::lay`]
//! answers a line; [`State::next`] takes a reply that is released, or takes a notice in hand whose entry is durable, of an address of which none is in
//! flight; [`State::record`] records one of the notices in hand; [`State::gone`], [`State::reader_ended`] and [`State::writer_ended`] end the callers of a host. The entry that a call makes waits
//! in a batch, and its notices wait in the queues of their addresses. [`State::hand_over`] gives that batch away as one frame, which somebody writes
//! meanwhile; then [`State::settle`] flushes the steps that the frame had, or [`State::fault`] tells that it failed.
//!
//! It stands for a world of the machine: it keeps what the world holds, the entries that wait are those after the ones of all frames that were
//! begun, and the queue of a bare address has exactly its notices that are not handed, in order (`specs/Stand.antt`, `Stands`). What a call does is
//! said of every world that the state stands for: `Goes` gives the world after the call's steps, and `specs/Arrive.antt`, `specs/NextLine.antt` and
//! `specs/Gone.antt` say the answers with their causes, told of that world.
//!
//! Where memory runs out a call makes no step, and the state stands for the same world. A call that makes an entry prepares it, makes room for its notices and
//! adds its bytes to the batch before it takes anything; [`State::next`] copies a notice and holds its address before it counts the step. Room that was made stays.
#![tactic(auto)]

mod adding;
mod answers;
mod flushing;
mod gone;
mod handed;
mod laying;
mod next;
mod replies;
mod rows;
mod state;

pub use answers::{ArriveRefusal, HandedRefusal, Limits, NextLine, Outcome, Receipt};
pub use ps_core::Service;
pub use state::{HostRow, Landing, State, Waiting};
