// How the workers wait for one another before they begin.
use std::sync::atomic::{AtomicU64, Ordering};
use std::sync::{Condvar, Wait};
use std::time::Duration;

// So often a worker looks whether all have come, and so many microseconds it rests in between at most: ten seconds in all.
const LOOKS: u64 = 1_000;

const REST: u64 = 10_000;

// The count from which on one of them has given up.
const GIVEN_UP: u64 = 1 << 32;

/// Counts the workers that have begun. Each has a thread of its own, but where the system refuses one: two of them would run one after the other then, and
/// wait for each other for ever. So none works until all have come, and none works at all if they don't come in time. No clause speaks of waiting.
#[derive(Drop)]
pub(crate) struct Muster {
    wanted: u64,
    came: AtomicU64,
    bell: Condvar,
}

impl Muster {
    pub(crate) fn new(workers: usize) -> Muster {
        Muster {
            wanted: workers as u64,
            came: AtomicU64::new(0),
            bell: Condvar::new(),
        }
    }

    /// Counts one more, and waits until all have come. False: they didn't come in time, and none may work.
    pub(crate) fn all_come<R: Wait>(&self, rt: &R) -> bool {
        self.came.fetch_add(1, Ordering::SeqCst);
        self.bell.notify_all();
        for _ in 0..LOOKS {
            let heard = self.bell.notifications();
            let came = self.came.load(Ordering::SeqCst);
            if came >= self.wanted {
                return came == self.wanted;
            }
            self.bell.sleep(rt, heard, Duration::from_micros(REST));
        }
        self.give_up()
    }

    // Gives up for all, unless all have come meanwhile. The count rises between two looks at most so often as workers are left.
    fn give_up(&self) -> bool {
        for _ in 0..self.wanted {
            let came = self.came.load(Ordering::SeqCst);
            if came >= self.wanted {
                return came == self.wanted;
            }
            let given_up = self
                .came
                .compare_exchange(came, GIVEN_UP, Ordering::SeqCst, Ordering::SeqCst);
            if given_up.is_ok() {
                self.bell.notify_all();
                return false;
            }
        }
        false
    }
}
