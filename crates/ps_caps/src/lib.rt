//! Entity capabilities (XEP-0115): what an entity answers of itself, and the verification string of such an answer.
//!
//! [`read_info`] takes a `query` of service discovery (XEP-0030 §3.1) as the answer that it is. [`ver_of`] gives exactly the
//! verification string of an answer (XEP-0115 §5.1), and says that one is ill-formed exactly where it is (XEP-0115 §5.4). [`check`] tells
//! whether an answer has a given verification string. All three only read what they are given, and out of memory is their only other
//! refusal.
//!
//! The words stand in ps_types: `CapString` has the answer that a `query` is, the text that is hashed and the answers that are
//! ill-formed, and `CapVer` has the verification string, over the definitions that the crates `sha1` and `base64` are proved against. Here
//! `specs/Typed.antt` says which form of those definitions a `TypedForm` of the code is.
#![tactic(auto)]

mod forms;
mod ill_formed;
mod info;
mod pieces;
mod sorted;
mod ver;

pub use info::read_info;
pub use ver::{VerRefusal, check, ver_of};
