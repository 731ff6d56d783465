//! Replies: the trees that the service answers with.
//!
//! [`error_reply`], [`result_reply`] and [`refused`] give exactly the trees of the model's `Replies` (RFC 6120 §8.3, XEP-0060 §3), and
//! [`message`] the stanza that carries a notice. [`condition`] is the condition of a number, none outside 1 to 28. The builders
//! [`put_pair`], [`element`] and [`only`] make trees in the model's own words, so that a caller's reply is proved by itself.
#![tactic(auto)]

mod build;
mod conditions;
mod replies;

pub use build::{element, only, put, put_pair};
pub use conditions::condition;
pub use replies::{ReplyHead, error_reply, message, refused, result_reply};
