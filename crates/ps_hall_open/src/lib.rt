//! The opening of a store: the bytes on a disk become the two values that the callers of the hall share.
//!
//! [`open`] reads the entries, takes each before it reads the next, and keeps none; it appends a Boot, and answers a [`ps_hall_state::State`]
//! and a [`ps_hall_store::Store`] that stand for the world of the machine which begins with that list and the Boot (`specs/Opens.antt`, `IsOpen`). Replaying
//! fills the queues too: an entry's notices go to the ends of the queues of their addresses, and an entry that tells of a notice that was handed takes the
//! first of its address away. So each queue has what is not handed, in order. All entries are durable, and no step was made.
//!
//! Where it answers an [`OpenRefusal`], the disk comes back with the cause: the offset of the damage, a fault of the disk, a Boot for which there is no
//! room, or no memory. A crash at any moment of the call leaves what it might have left before, the entries, or those and the Boot. The store that was
//! opened keeps this in what it stands for, of all moments since the call began (`at_from`).
//!
//! [`read_store`] reads and replays likewise, and writes nothing: no header, no Boot. It answers what the entries leave, the service and the queues
//! (`specs/Reads.antt`, `IsKept`). The entries that an answer has are a list that only proofs read.
//!
//! [`observe`] opens a store as [`open`] does, header and all, takes its entries, and adds none: an [`Observer`] sees each, and it answers the service after
//! them and the disk (`specs/OpenRead.antt`). [`open_read`] answers the list of the entries. Whoever replays them begins with [`fresh_service`].
#![tactic(auto)]

mod beginning;
mod opened;
mod opening;
mod read_only;
mod reading;
mod readying;
mod replaying;
mod restoring;

pub use opened::{
    Kept, Observed, OpenRefusal, OpenWhy, Opened, ReadOnly, ReadOnlyRefusal, ReadWhy, Rebuilt,
    StoreRead,
};
pub use opening::open;
pub use read_only::{observe, open_read};
pub use reading::read_store;
pub use readying::fresh_service;
pub use replaying::{Nobody, Observer};
