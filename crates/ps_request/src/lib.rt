//! What a tree on the stream of a host asks of the service, or the first step by which it asks nothing.
//!
//! The model (`specs/Taking.antt` and `specs/Asking.antt` of ps_model, and what they stand on) says what a tree is taken as.
//! [`take_tree`] finds exactly that; [`read_request`] answers the request alone, or why there is none. The steps stand in one
//! order, and the first that fails decides: the sender is an address of the stream's host, the tree has the shape of a stanza
//! (RFC 6120 §8), its target is the service host or an account, its kind is known, its node is named in at most 512 bytes, and
//! the addresses in it are addresses. Whether the node stands, and who may do what, is asked later. Only memory fails besides.
//!
//! [`Head`] is what the reply to a stanza is made of, and [`is_answered`] says which stanzas get one.
//!
//! [`request_tree`] goes the other way: the stanza that a request is written as (`specs/Written.antt`), which is taken as that
//! request wherever some tree is.
//!
//! `specs/Taking.antt` has the words of these contracts: `taken_of`, what a tree is taken as; `taken_view`, what was found of it;
//! and `Tells`, that an answer is exactly that. `specs/Heads.antt` sees a head as the model's, and `specs/Answer.antt` says what
//! the readers of the parts answer.
#![tactic(auto)]

mod asking;
mod build;
mod entity;
mod forms;
mod head;
mod kids;
mod owner;
mod parts;
mod publish;
mod router;
mod rows;
mod stanza;
mod taking;
mod whole;
mod written;

pub use head::{Head, head_of, is_answered};
pub use stanza::{is_iq, is_message, is_presence};
pub use taking::{TakenTree, read_request, take_tree};
pub use whole::request_tree;
