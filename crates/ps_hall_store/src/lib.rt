//! The store as one of the two values that the callers share: a journal that is written while others go on with the state.
//!
//! A [`Store`] keeps its journal, and knows neither a service nor a thread. [`Store::append`] writes a [`Frame`], which has the entries of as many
//! steps as came since the last one; [`Store::entries`] reads the list again; [`Store::note`] counts the step that tells of a fault.
//!
//! It stands for a world of the machine (`specs/Stand.antt`, `StoreStands`). That relation has all that crashes keep (`IsKept`), so that nobody above
//! carries it along: a crash now leaves a front of the world's entries that has those of all firm steps; a crash at any moment since the store was
//! opened left one that has the whole list with which it was opened, and that is a front of a list that a crash may leave now; and a crash at any moment since
//! before the opening left what it might have left then, or a front that has all entries but the last of the opening's (`SinceStart`).
//! While nothing has failed the disk has all entries (`IsWhole`). Whatever a crash leaves has at least the bytes of the frames that its entries are of (`LeavesSized`).
//!
//! Between two worlds: `Follows` (`specs/Calm.antt` of ps_world) says that the later is made of the earlier with no crash between. `Loaded` (`specs/Frames.antt`)
//! says that a store stands for one world, and a frame has what lacks of a later one; after `append` it stands for that later world, or is
//! torn (`IsTorn`) until the fault is told by a step.
#![tactic(auto)]

mod store;

pub use store::{Frame, Store};

#[cfg(test)]
mod tests;
