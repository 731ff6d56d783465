// What the callers share beside the journal.
use crate::answers::Limits;
use ps_base::Bytes;
use ps_core::Service;
use ps_outbox::Outboxes;
use ps_record::Batch;
use ps_types::{Jid, Text};
use std::alloc::Global;

/// A reply that is not taken, and the step that made it.
#[derive(Drop)]
pub struct Waiting {
    pub step: u64,
    pub reply: Bytes,
}

/// The bare address whose notice a writer recorded last, and the step that did so.
#[derive(Drop)]
pub struct Landing {
    pub to: Jid,
    pub step: u64,
}

/// What is kept for one host: the number of its lines, the replies that are not taken, what its writer recorded last, and whether its callers have
/// ended. The addresses whose notices the writer has in hand are held in the queues.
pub struct HostRow {
    pub host: Text,
    pub line: u64,
    pub waiting: Vec<Waiting>,
    pub landing: Option<Landing>,
    pub reader_ended: bool,
    pub writer_ended: bool,
}

// By hand, so that a row is let go by one call.
impl Drop for HostRow {
    fn drop(self) {
        let HostRow {
            host: _,
            line: _,
            waiting: _,
            landing: _,
            reader_ended: _,
            writer_ended: _,
        } = self;
    }
}

/// The service, the notices that are not handed, the hosts, the entries that wait to be written, the numbers of entries and of bytes of all frames
/// that were begun, whether one of them failed, the numbers of steps, of flushed steps and of durable entries, and how long the store may become.
pub struct State {
    pub service: Service,
    pub queues: Outboxes,
    pub rows: Vec<HostRow>,
    pub batch: Option<Batch>,
    pub count: u64,
    pub length: u64,
    pub broken: bool,
    pub steps: u64,
    pub flushed: u64,
    pub durable: u64,
    pub limits: Limits,
    pub alloc: Global,
}

// By hand, so that a state is let go by one call wherever a function ends.
impl Drop for State {
    fn drop(self) {
        let State {
            service: _,
            queues: _,
            rows: _,
            batch: _,
            count: _,
            length: _,
            broken: _,
            steps: _,
            flushed: _,
            durable: _,
            limits: _,
            alloc: _,
        } = self;
    }
}
