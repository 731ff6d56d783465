// A clock that stands still.
ghost use Rattle.std.specs.Prelude.{◌≡◌, IfOk, IsOk, Some};
ghost use Rattle.ps_base.specs.Causes.{HasCause};
ghost use Rattle.ps_io.specs.Clock.{Tells};
ghost use Rattle.ps_rehearse.specs.Still.{zeros};

use ps_base::Failed;
use ps_io::Clock;

/// A clock that always answers 0 and never fails, and that tells how often it was asked.
#[derive(Debug, Drop)]
pub struct StillClock {
    /// How often it was asked. The number stands still at its type's end.
    pub asked: u64,
}

impl Clock for StillClock {
    ghost told = { λ c. Some (zeros c.asked) };

    ghost faults = { λ _. 0 };

    fn now(&mut self) -> Result<u64, Failed>
        ensures told { Tells (Some (zeros self.old.asked)) (Some (zeros self.new.asked)) result }
        ensures cause { HasCause 0 0 result }
        ensures succeeds { IsOk result }
        ensures moment { IfOk result (λ n. n ≡ 0) }
    {
        self.asked = self.asked.saturating_add(1);
        Ok(0)
    }
}
