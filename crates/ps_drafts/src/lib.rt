//! Notices before they have their numbers.
//!
//! A [`Draft`] is seen as the tree of a notice without its id, and [`Draft::line`] prints that tree with the id of a number: what `print` of `ps_types`'
//! `specs/Print.antt` gives for the `with_id` of `ps_model`'s `specs/NoticeTrees.antt`. The messages of one event differ in their address, in their id and
//! in the collection that they name, so what they have in common is a [`EventForm`], whose text is printed once and which their drafts share.
//! `specs/Parts.antt` has the parts of a line.
#![tactic(auto)]

mod draft;
mod form;
mod trees;
mod words;

pub use draft::Draft;
pub use form::EventForm;
pub use trees::message;
