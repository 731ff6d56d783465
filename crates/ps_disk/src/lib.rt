//! A disk, and what a crash may leave on it.
//!
//! [`Disk`] is the trait of a device that is read and written at offsets and synced. Its contract is a model of crashes: after a sync
//! that succeeds, a crash leaves what a read gives; from then on each range that is written, and what lies past the old end, may hold any
//! bytes after a crash, and all other bytes stay. `specs/Disk.antt` has the words: `MayLeave` is what a crash now may leave, `Elapses` how
//! time goes on through a call, and `LeavesOnly` what a crash at any moment of a run of calls leaves.
//!
//! [`MemDisk`] is a disk in memory. It keeps a record of its calls, fails at those that it is told to fail, and makes the disk that a crash
//! after any of its calls leaves. A contract sees it as the record of `specs/Calls.antt`, of which the functions there tell the rest.
//! [`FileDisk`] is a file of the system; it tells nothing of content, and a contract sees it as its count of faults.
//! [`write_kept`] is a write with its sync, the step of which a journal is made.
#![tactic(auto)]

mod device;
mod file;
mod kept;
mod memory;
mod replay;

pub use device::Disk;
pub use file::FileDisk;
pub use kept::write_kept;
pub use memory::MemDisk;
pub use replay::Torn;
