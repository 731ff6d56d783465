//! The command that mirrors a node, in a world: [`mirror_source`] opens the source, takes its lines (ps_mirror), and gives it back.
//!
//! What comes of it are the lines of a report, or how the command ended; telling either is the caller's. `specs/Mirroring.antt` says what it does to a
//! world (`Mirrors`): the lines are those of the copy that the source's lines make of the node (`RanMirror` of ps_mirror), and nothing but the source is
//! touched.
#![tactic(auto)]

mod mirroring;

pub use mirroring::mirror_source;
