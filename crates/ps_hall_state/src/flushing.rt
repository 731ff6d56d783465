// What a flush does with the state.
ghost use Rattle.std.specs.Prelude.{◌≡◌, ◌∷◌, ◌⊎◌, ◌+◌, ◌<◌, ◌^◌, [], true, None};
ghost use Rattle.ps_model.specs.declared.steps.Step.{Step};
ghost use Rattle.ps_hall_state.specs.Stand.{IsStanding, bytes_of};
ghost use Rattle.ps_hall_state.specs.Steps.{Goes, KeepsMark, KeepsNumbers, KeepsSteps, Settles};

use crate::state::State;
use ps_record::Batch;
use std::mem;

impl State {
    /// The entries that wait are given away, as those of one frame that is begun.
    pub fn hand_over(&mut self) -> Option<Batch>
        requires standing { IsStanding self.old }
        ensures batch { result ≡ self.old.batch }
        ensures none { self.new.batch ≡ None }
        ensures count { self.new.count ≡ self.old.service.state.count }
        ensures length { self.new.length ≡ self.old.length + bytes_of self.old.batch }
        ensures kept { KeepsSteps self.old self.new }
        ensures goes { Goes self.old self.new [] }
    {
        self.length += self.frame_bytes();
        self.count = self.service.count();
        mem::replace(&mut self.batch, None)
    }

    /// The first `upto` steps are flushed, and with them so many entries, unless more are already.
    pub fn settle(&mut self, upto: u64, count: u64)
        requires few { self.old.steps < 2 ^ 63 }
        ensures firm { (self.new.flushed ≡ upto) ⊎ (self.new.flushed ≡ self.old.flushed) }
        ensures mark { KeepsMark self.old self.new }
        ensures steps { self.new.steps ≡ self.old.steps + 1 }
        ensures goes { Settles self.old self.new upto count }
    {
        if self.flushed <= upto {
            self.flushed = upto;
            self.durable = count;
            self.steps += 1;
            return;
        }
        self.steps += 1;
    }

    /// A frame failed.
    pub fn fault(&mut self)
        requires few { self.old.steps < 2 ^ 63 }
        ensures broken { self.new.broken ≡ true }
        ensures steps { self.new.steps ≡ self.old.steps + 1 }
        ensures kept { KeepsNumbers self.old self.new }
        ensures goes { Goes self.old self.new (Step.Broken ∷ []) }
    {
        self.broken = true;
        self.steps += 1;
    }
}
