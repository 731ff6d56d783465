//! How a run ends, and what is reported of it.
//!
//! [`Status`] has the code by which the program ends and the line that is reported (`specs/Statuses.antt`: `code_of`, `report_of`). [`tell`] reports
//! that line, and [`tell_lines`] the lines of a command that has some; a report that fails ends these by `StreamFault` (`specs/Telling.antt`:
//! `IsReported`, `TellsText`, `Tells`, `ComesTo`).
//!
//! The words for what a command does to a world stand here too: what a world tells of its objects (`specs/Outside.antt`: `Outside`, `Untouched`), what
//! was opened (`specs/Asking.antt`: `AsksInOrder`) and what stays as it was (`specs/Leaving.antt`: `LeavesBut`).
#![tactic(auto)]

mod status;
mod telling;

pub use status::{Report, Status};
pub use telling::{refused, tell, tell_lines};
