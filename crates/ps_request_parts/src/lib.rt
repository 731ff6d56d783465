//! What a request tells beyond its grammar, which its check and its change both ask.
//!
//! [`options_config`] is the configuration that the options of a publish make of another (XEP-0060 §7.1.5). [`told_by`] is what a roster
//! item tells (RFC 6121 §2.1.2). [`features_known`] are the features that are known of a resource by the capabilities that it shows
//! (XEP-0115 §5.4), and [`usable_answer`] is what its own answer is good for: nothing where it answers another question, is too long or is
//! ill-formed, and else its features, which count for all who show these capabilities only where their string has the hash that was shown.
//!
//! `specs/Told.antt` says which of the model's words a [`Told`] is, and `specs/Answers.antt` what an answer is good for.
#![tactic(auto)]

mod answers;
mod contacts;
mod known;
mod options;

pub use answers::{Answered, usable_answer};
pub use contacts::{Told, told_by};
pub use known::features_known;
pub use options::{options_config, tree_options};
