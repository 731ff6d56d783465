//! The laws of the machine of steps that `ps_model` defines, for every list of steps and any number of hosts.
//!
//! `specs/Laws.antt` has the laws, of any service: `EachRunHolds`, `EachStepStays` and `EachCrashHolds`. `specs/Holds.antt` says what they promise of a world: `IsReleased`
//! (a reply whose line is flushed), `IsSaidIn` (it is the service's reply at its place, and its line's entry stands there), `AreRounds` (what was sent from one boot to
//! the next), `WorldHolds` (at any time), `StillHolds` (after any more steps, crashes among them) and `CrashHolds` (after one crash). `specs/Sound.antt` and
//! `specs/Lasting.antt` have the invariants that each step keeps. `specs/Calm.antt` says what steps with no crash among them are (`AreCalm`), and
//! what they leave of a world (`Follows`).
//!
//! Each function here has an empty body: its contract is the law.
#![tactic(auto)]

mod laws;

pub use laws::{
    calm_steps_follow, each_crash_holds, each_run_holds, each_service_holds, each_step_stays,
};
