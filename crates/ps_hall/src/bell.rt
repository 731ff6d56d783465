// The bells, which wake who rests.
use crate::hall::{Hall, Pass};
use ps_base::Memory;
use ps_disk::Disk;
use ps_hall_flush::Opening;
use ps_hall_state::{ArriveRefusal, Outcome, Receipt, State};
use std::alloc::Global;
use std::sync::{Condvar, Wait};
use std::time::Duration;

/// A bell for each host: it wakes the callers of the host that rest, and nothing more.
#[derive(Drop)]
pub(crate) struct Bells {
    bells: Vec<Condvar>,
}

impl Bells {
    pub(crate) fn new(alloc: Global, hosts: usize) -> Result<Bells, Memory> {
        let mut bells = Vec::new(alloc);
        for _ in 0..hosts {
            bells.push(Condvar::new())?;
        }
        Ok(Bells { bells })
    }

    fn ring(&self, at: usize) {
        if let Some(bell) = self.bells.get(at) {
            bell.notify_all();
        }
    }

    /// For all hosts.
    pub(crate) fn ring_all(&self) {
        for bell in &self.bells {
            bell.notify_all();
        }
    }
}

// Whether a notice waits for an address of another host than the one at a place.
fn others_are_told(state: &State, at: usize) -> bool {
    for (other, row) in state.rows.iter().enumerate() {
        if other != at && state.queues.ready(&row.host, u64::MAX).is_some() {
            return true;
        }
    }
    false
}

/// Whether other hosts may have something to say since a line was laid for the host at a place: only an entry makes notices.
pub(crate) fn concerns_others(
    state: &State,
    at: usize,
    outcome: &Result<Receipt, ArriveRefusal>,
) -> bool {
    match outcome {
        Ok(
            Receipt {
                outcome: Outcome::Committed,
                ..
            },
        ) => others_are_told(state, at),
        Ok(_) | Err(_) => false,
    }
}

impl<B: Opening, D: Disk> Hall<B, D> {
    /// How often the bell of the pass's host rang, in a number that begins again behind its greatest. A writer asks before [`Hall::next`], so that it hears a
    /// ring that comes after it has looked.
    pub fn news(&self, pass: &Pass<B, D>) -> u64 {
        match self.bells.bells.get(pass.at) {
            Some(bell) => bell.notifications(),
            None => 0,
        }
    }

    /// Rests until the bell of the pass's host has rung since it was heard, or so long has gone by; perhaps for less. It rings at the end of each call after
    /// which its writer may find something, also where that is refused: [`Hall::flush`] or [`Hall::history`] of its reader, or of another's that since its last
    /// one laid an entry while a notice waited for one of its addresses, [`Hall::gone`] and [`Hall::writer_ended`] of any, and [`Hall::handed`] of any whose
    /// writer ended or whose frame failed. That who rests is woken is all that it does: no clause speaks of it.
    pub fn rest<R: Wait>(&self, rt: &R, pass: &Pass<B, D>, heard: u64, longest: Duration) {
        if let Some(bell) = self.bells.bells.get(pass.at) {
            bell.sleep(rt, heard, longest);
        }
    }

    // At the end of a flush, by whether it was refused.
    pub(crate) fn ring_for(&self, pass: &Pass<B, D>, refused: bool) {
        if refused || pass.concerns_others {
            self.bells.ring_all();
        } else {
            self.bells.ring(pass.at);
        }
    }
}
