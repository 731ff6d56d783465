//! The outside by names: what the program meets beyond itself.
//!
//! A [`World`] opens sources, sinks, stores and clocks by name, takes them back, and takes reports. For each kind and name it tells what
//! it holds there while that object isn't open (`specs/Held.antt`), which openings were asked for, and what was reported; an opening or a
//! report answers `Failed` only where the world's own count of faults rose in that call (`specs/World.antt`).
//!
//! [`MemWorld`] stands in memory and fails at the calls that it is given. [`RealWorld`] stands over the files, the clock and the standard
//! output of the system; it tells counts and openings, and nothing of content. It holds a store alone while that is open, makes a missing
//! one only where the caller asks for it ([`Missing`]), and says on the
//! standard error which object failed, in the system's words ([`Named`]). A [`Clock`] gives the moment of a line.
#![tactic(auto)]

mod clock;
mod mem_clock;
mod mem_world;
mod named;
mod real;
mod shelf;
mod world;

pub use clock::{Clock, ConstClock, RealClock};
pub use mem_clock::MemClock;
pub use mem_world::MemWorld;
pub use named::{HoldAlone, Named};
pub use real::RealWorld;
pub use world::{Kind, Missing, OpenCall, World, WorldRefusal};
