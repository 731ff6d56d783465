//! The laws of an audit of a store: how the verdicts for an address at a node came about, and who may read a node.
//!
//! `specs/History.antt` says which lines a history has: one at the start, and one after each entry that changes what the four verdicts say (`history`).
//! `specs/Verdicts.antt` has the verdicts and their texts. `specs/Readers.antt` says who is known at a node, and what holds of all others.
//!
//! `specs/Laws.antt` has the laws. `EachVerdictIsTold`: after any number of entries the verdicts are those of the last line up to there.
//! `EachLineTellsAChange`: a line stands where the verdicts differ from those before the entry, and only there. `EachReaderIsTold`: whether an address may
//! read is what its line says, or what is said of the others where it has none. `EachLineIsOfOne`: no address has two lines. `EachKnownIsAddress`: each
//! line is of a bare address (RFC 7622). `NoRowNamesTheOthers`: what is said of the others is the verdict of each address that isn't known.
//!
//! Each function here has an empty body: its contract is the law.
#![tactic(auto)]

mod laws;
mod told;

pub use laws::{
    each_known_is_address, each_line_is_of_one, each_line_tells_a_change, each_reader_is_told,
    each_verdict_is_told, no_row_names_the_others,
};
pub use told::{ExplainLine, Four};
