// A clock: the moments of lines.
ghost use Rattle.std.specs.Prelude.{◌≡◌, List, ℕ};
ghost use Rattle.std.specs.declared.option.Option.{Option};
ghost use Rattle.ps_base.specs.Causes.{HasCause};
ghost use Rattle.ps_io.specs.Clock.{Tells};

use ps_base::Failed;
use std::time::SystemTime;

/// A clock that counts seconds since 1970-01-01T00:00:00Z.
pub trait Clock {
    /// The answers so far, one for each call, where the clock tells them. A call that failed has none.
    ghost told: { Self → Option (List (Option ℕ)) };

    /// How often the clock has failed. It never falls, and stands still at its type's end.
    ghost faults: { Self → ℕ };

    /// The moment, in seconds since 1970-01-01T00:00:00Z.
    fn now(&mut self) -> Result<u64, Failed>
        ensures told { Tells (told self.old) (told self.new) result }
        ensures cause { HasCause (faults self.old) (faults self.new) result };
}

/// A clock that always answers one number and never fails. It doesn't tell how often it was asked.
#[derive(Clone, Copy, Debug, PartialEq, Eq)]
pub struct ConstClock {
    pub moment: u64,
}

impl Clock for ConstClock {
    ghost use Rattle.std.specs.Prelude.{None, IfOk, IsOk};

    ghost told = { λ _. None };

    ghost faults = { λ _. 0 };

    fn now(&mut self) -> Result<u64, Failed>
        ensures told { Tells None None result }
        ensures cause { HasCause 0 0 result }
        ensures succeeds { IsOk result }
        ensures moment { IfOk result (λ n. n ≡ self.old.moment) }
    {
        let moment = self.moment;
        Ok(moment)
    }
}

/// The clock of the system. It tells nothing.
#[derive(Drop)]
pub struct RealClock<R: std::time::Clock + Drop> {
    rt: R,
    faults: u64,
}

impl<R: std::time::Clock + Drop> RealClock<R> {
    ghost use Rattle.ps_io.specs.Real.{clock_faults};

    /// The clock of this runtime, which has failed that often so far.
    pub fn new(rt: R, faults: u64) -> RealClock<R>
        ensures { clock_faults result ≡ faults }
    {
        RealClock { rt, faults }
    }

    /// How often it has failed.
    pub fn faults(&self) -> u64
        ensures { result ≡ clock_faults self.now }
    {
        self.faults
    }
}

impl<R: std::time::Clock + Drop> Clock for RealClock<R> {
    ghost use Rattle.std.specs.Prelude.{None};
    ghost use Rattle.ps_io.specs.Real.{clock_faults};

    ghost told = { λ _. None };

    ghost faults = { clock_faults };

    fn now(&mut self) -> Result<u64, Failed> {
        if let Ok(now) = SystemTime::now(&self.rt) {
            if let Ok(since) = now.duration_since(SystemTime::UNIX_EPOCH) {
                return Ok(since.as_secs());
            }
        }
        self.faults = self.faults.saturating_add(1);
        Err(Failed)
    }
}
