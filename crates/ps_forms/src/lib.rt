//! Data forms (XEP-0004): a tree as a form, and a form as a tree.
//!
//! [`read_form`] takes exactly the forms of `Forms` in ps_types, with their values, and [`form_tree`] gives exactly the tree that a form
//! is printed as. [`get`] and [`form_type`] look into a form. [`printed_form_reads_back`] is the law on the two. The children of an
//! element are gone through by [`next_child`], and its texts are read by [`text_of`] and [`texts_of`].
//!
//! `specs/Kids.antt` says what the next child of a name is, and `specs/Vars.antt` which fields are read again.
#![tactic(auto)]

mod build;
mod find;
mod kids;
mod laws;
mod print;
mod read;

pub use find::{form_type, get};
pub use kids::{attr, has_attr, has_name, next_child, text_of, texts_of};
pub use laws::printed_form_reads_back;
pub use print::form_tree;
pub use read::{FormRefusal, read_form};
