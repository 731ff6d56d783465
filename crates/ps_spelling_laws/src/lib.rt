//! Laws of what is read, exactly: which tree a line is, and what the bytes of a store have.
//!
//! `specs/Laws.antt` has the laws. `EachLineIsExact`: a line has a tree exactly where the text reads as that tree, so what is read has its form too: names, texts and values of attributes
//! in UTF-8, attributes sorted by name, each name once, and no more levels than a tree may have. `EachStoreHasOne`: the bytes of a store have a list of entries, each accepted at its
//! place, or a place of damage (`specs/Store.antt`); `ps_model` says that they have one of the two at most, and one list and one place at most.
//!
//! Each function here has an empty body: its contract is the law. `proofs/` goes from bytes to strings (`Strings`), tokens (`Lexemes`), values (`Parsing`, `Values`) and trees (`Trees`),
//! then decides whether bytes begin with an entry (`Entries`) and goes through the frames of a store (`Stores`).
#![tactic(auto)]

mod laws;

pub use laws::{each_line_is_exact, each_store_has_one};
