// How a writer waits that finds nothing, and a reader whose line finds no room for its reply.
use ps_disk::Disk;
use ps_hall::{Hall, Opening, Pass};
use std::sync::Wait;
use std::thread::yield_now;
use std::time::Duration;

// So often it listens again before it rests, since after a line another often comes at once.
const LOOKS: u64 = 16;

/// So many microseconds a writer rests at most: it is woken once there is something.
pub(crate) const FOR_LINES: u64 = 1_000_000;

/// So many a reader rests at most: nobody wakes it once a reply is taken. Its writer writes the 64 that wait in about this time.
pub(crate) const FOR_ROOM: u64 = 500;

/// Gives way to others until the hall has news for the host since they were heard, and later rests until then, or until so many microseconds have gone by.
/// No clause speaks of waiting.
pub(crate) fn await_news<B: Opening, D: Disk, R: Wait>(
    rt: &R,
    hall: &Hall<B, D>,
    pass: &Pass<B, D>,
    heard: u64,
    longest: u64,
) {
    for _ in 0..LOOKS {
        if hall.news(pass) != heard {
            return;
        }
        yield_now();
    }
    hall.rest(rt, pass, heard, Duration::from_micros(longest));
}
