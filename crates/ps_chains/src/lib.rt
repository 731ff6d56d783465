//! Chains of places: where each digest stands in a list that only grows, and of which places go.
//!
//! A table keeps its rows in places, and a place of which the row has gone stays empty. [`Chains`] keeps one index over the places:
//! each place is marked with the digest of what stands there, and the places of one digest are linked, the first to the
//! last and back. So the first, the next and the last place of a digest, and how many it has, are read in a time that does not grow
//! with the list, and a place is marked or taken away in such a time too. It takes no memory but in [`Chains::reserve`].
//!
//! A contract sees a [`Chains`] as a `Table` (`ps_base`, `specs/Rows.antt`) of its marks, and its spare, which is how many more places
//! are marked without memory. `specs/Chained.antt` says what is kept beside the marks. [`Seeded`] hashes the keys of a map by a seed, as rows are
//! hashed (`specs/Seeding.antt`).
#![tactic(auto)]

mod chains;
mod ends;
mod links;
mod seeded;
mod small;

pub use chains::Chains;
pub use ends::Ends;
pub use seeded::Seeded;
pub use small::{Link, Mark};
