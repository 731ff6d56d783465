//! The requests of those who publish (XEP-0060 §7): what a publish and a retract are checked by, and what an accepted one answers.
//!
//! [`plan`] is the model's check for these two kinds (`specs/Plans.antt`), at the service host and at accounts: the first step that
//! fails denies, by its condition, and else the plan has the child of the result.
#![tactic(auto)]

mod items;
mod options;
mod plans;
mod publish;
mod replies;
mod retract;

pub use plans::plan;
