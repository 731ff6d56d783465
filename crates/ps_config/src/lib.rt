//! The configuration of a node, and the options of a subscription, as data forms (XEP-0060 §16.4).
//!
//! [`read_config`] and [`read_options`] read a form against a base, exactly as `Config` and `Options` in ps_types say, and name the first
//! row that isn't readable. [`config_form`] and [`options_form`] give exactly the forms of these definitions, and [`default_config`]
//! the configuration of a node that is made without a form. [`has_row`] tells the fields of the configuration from others.
//!
//! The seventeen rows stand in `row.rt`, which says of each what it is called and what it holds, and in `change.rt`, which says what
//! its values make of a configuration.
//!
//! [`printed_config_reads_back`], [`configs_stay_bounded`] and [`printed_options_read_back`] are the laws on these.
//!
//! `specs/Rows.antt` ties the names of the rows to the table in ps_types, and `specs/Cause.antt` says what a refusal means;
//! `specs/Bounds.antt` has the bounds of a configuration, `specs/Cells.antt` what a row holds, and
//! `specs/Digits.antt` what number 1 to 20 digits write.
#![tactic(auto)]

mod change;
mod defaults;
mod known;
mod laws;
mod options;
mod print;
mod read;
mod row;
mod values;

pub use defaults::default_config;
pub use known::has_row;
pub use laws::{configs_stay_bounded, printed_config_reads_back, printed_options_read_back};
pub use options::{OptionsRefusal, options_form, read_options};
pub use print::config_form;
pub use read::{ConfigRefusal, read_config};
