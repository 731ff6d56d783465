// A clock in memory, which answers from a list and fails past its end.
ghost use Rattle.std.specs.Prelude.{◌≡◌, ◌<◌, ◌≤◌, ◌↔◌, [], length, IfOk, IsErr, slice_index};
ghost use Rattle.ps_base.specs.Causes.{HasCause, next_count};
ghost use Rattle.ps_io.specs.Clock.{Tells};
ghost use Rattle.ps_io.specs.MemClock.{told_by};

use crate::Clock;
use ps_base::{Failed, Memory};
use std::alloc::Global;
use std::marker::Model;

/// A clock that answers from a list, one answer a call, and fails past its end.
#[derive(Drop)]
pub struct MemClock {
    answers: Vec<u64>,
    calls: u64,
    faults: u64,
}

impl Model for MemClock {
    ghost use Rattle.ps_io.specs.MemClock.{ClockView};

    ghost Value = { ClockView };

    ghost view = { λ c. record { answers = c.answers.items; calls = c.calls; faults = c.faults } };
}

impl MemClock {
    /// A clock of these answers, which wasn't asked yet.
    pub fn new(alloc: Global, answers: &[u64]) -> Result<MemClock, Memory>
        ensures { IfOk result (λ c. c ≡ record { answers = answers.now; calls = 0; faults = 0 }) }
    {
        let answers = answers.to_vec(alloc)?;
        Ok(MemClock {
            answers,
            calls: 0,
            faults: 0,
        })
    }
}

impl Clock for MemClock {
    ghost use Rattle.std.specs.Prelude.{Some};

    ghost told = { λ c. Some (told_by c.answers c.calls) };

    ghost faults = { λ c. c.faults };

    fn now(&mut self) -> Result<u64, Failed>
        ensures told { Tells (Some (told_by self.old.answers self.old.calls))
            (Some (told_by self.new.answers self.new.calls)) result }
        ensures cause { HasCause self.old.faults self.new.faults result }
        ensures answer { IfOk result
            (λ n. (self.old.calls < length self.old.answers) × (n ≡ slice_index self.old.answers self.old.calls)) }
        ensures past { IsErr result ↔ (length self.old.answers ≤ self.old.calls) }
        ensures answers { self.new.answers ≡ self.old.answers }
        ensures calls { self.new.calls ≡ next_count self.old.calls }
    {
        let at = self.calls;
        self.calls = self.calls.saturating_add(1);
        match self.answers.get(at as usize) {
            Some(answer) => Ok(*answer),
            None => {
                self.faults = self.faults.saturating_add(1);
                Err(Failed)
            }
        }
    }
}
