// The lines of a source, one at a time.
ghost use Rattle.std.specs.Prelude.{◌≡◌, ◌⊎◌, ◌≤◌, ◌<◌, ◌^◌, [], Some, None, true, false, IfOk, OnOk, IfErr, IfSome, IsErrOf, IsTrue, Contains};
ghost use Rattle.ps_base.specs.Causes.{Rose};
ghost use Rattle.ps_types.specs.Lines.{NoNewline};
ghost use Rattle.ps_wire.specs.AtEnd.{nothing_of};
ghost use Rattle.ps_wire.specs.declared.lines.NextLineRefusal.TheVariants.{ReadFault, Memory as OutOfMemory};

use crate::Source;
use crate::held::{Held, find_newline};
use crate::line::Line;
use ps_base::{Bytes, Failed, Memory};
use std::alloc::Global;

/// The most bytes that a reader takes from its source.
const LIMIT: u64 = 1 << 40;

/// What comes next from a source.
#[derive(Debug, Drop)]
pub enum NextLine {
    /// A line without its newline, at most 262,144 bytes.
    Line(Bytes),
    /// A line of more than 262,144 bytes, which was read to its newline and let go.
    TooLong,
    /// No line is left.
    End,
}

/// Why a reader of lines stopped.
#[derive(Clone, Copy, Debug, PartialEq, Eq)]
pub enum NextLineRefusal {
    /// The source failed.
    ReadFault,
    /// The source gave 2^40 bytes, and no ended line of them is left.
    Long,
    /// Memory ran out.
    Memory,
}

impl From<Memory> for NextLineRefusal {
    ghost from_gives = { λ _ e. e ≡ OutOfMemory };

    fn from(_: Memory) -> NextLineRefusal {
        NextLineRefusal::Memory
    }
}

impl From<Failed> for NextLineRefusal {
    ghost from_gives = { λ _ e. e ≡ ReadFault };

    fn from(_: Failed) -> NextLineRefusal {
        NextLineRefusal::ReadFault
    }
}

/// Memory ran out, and the source comes back as it was.
pub struct LinesRefusal<S> {
    pub source: S,
}

/// A reader of lines. It takes at most 2^40 bytes from its source, and after a refusal it answers the same again.
///
/// `specs/Reading.antt` names what contracts see of it: its source, the bytes that it holds, how many it was given, whether
/// the input has ended, and the refusal at which it stopped.
#[derive(Drop)]
pub struct Lines<S: Source> {
    source: S,
    held: Held,
    given: u64,
    ended: bool,
    stopped: Option<NextLineRefusal>,
    ghost at_end: { IsTrue ended → S.left source ≡ nothing_of (S.left source) },
    ghost early: { IsTrue ended → given < 2 ^ 40 },
    ghost within: { given ≤ 2 ^ 40 },
}

impl<S: Source> Lines<S> {
    ghost use Rattle.ps_wire.specs.Reading.{source_of, held_of, given_of, ended_of, stopped_of, rest_of, budget_of, IsFresh, IsNext, IsLine, Takes, Ends, Gave, CutAtNewline, IsPastLimit, IsBeforeLimit, IsWithoutLine, ReadNothing, StandsStill};

    /// A reader over the source, which has read nothing yet.
    pub fn new(alloc: Global, source: S) -> Result<Lines<S>, LinesRefusal<S>>
        ensures ok { IfOk result (λ lines. (source_of lines ≡ source) × IsFresh lines) }
        ensures err { IfErr result (λ e. e.source ≡ source) }
    {
        match Held::new(alloc) {
            Ok(held) => Ok(Lines {
                source,
                held,
                given: 0,
                ended: false,
                stopped: None,
            }),
            Err(Memory) => Err(LinesRefusal { source }),
        }
    }

    /// The source, behind the bytes that it gave.
    pub fn close(self) -> S
        ensures { result ≡ source_of self }
    {
        let Lines {
            source,
            held: _,
            given: _,
            ended: _,
            stopped: _,
        } = self;
        source
    }

    /// Whether a whole line is held. Then the next call leaves the source alone, so that it waits for nobody.
    pub fn holds_line(&self) -> bool
        ensures some { result ≡ true → Contains (held_of self.now) 10 }
        ensures none { result ≡ false → NoNewline (held_of self.now) }
    {
        find_newline(self.held.bytes()).is_some()
    }

    /// The next line. It reads only while it holds no whole line and the input hasn't ended. Where the source fails, or has given all that
    /// it may, no newline stands in what was held and what the source gave since: each line that a newline ended has been answered.
    pub fn next(&mut self, alloc: Global) -> Result<NextLine, NextLineRefusal>
        ensures next { IfOk result (λ next. IsNext next (rest_of self.old) (rest_of self.new)) }
        ensures line { IfOk result IsLine }
        ensures takes { IfOk result (λ next. Takes next (budget_of self.old) (budget_of self.new)) }
        ensures again { IfSome (stopped_of self.old) (λ why. (result ≡ Err why) × StandsStill self.old self.new) }
        ensures going { OnOk result (stopped_of self.new ≡ None) }
        ensures stops { IfErr result (λ why. stopped_of self.new ≡ Some why) }
        ensures later { S.faults (source_of self.old) ≤ S.faults (source_of self.new) }
        ensures fault { IsErrOf result NextLineRefusal.ReadFault →
            (stopped_of self.old ≡ Some NextLineRefusal.ReadFault)
            ⊎ Rose (S.faults (source_of self.old)) (S.faults (source_of self.new)) }
        ensures long { IsErrOf result NextLineRefusal.Long →
            (stopped_of self.old ≡ Some NextLineRefusal.Long)
            ⊎ ((given_of self.new ≡ 2 ^ 40) × IsPastLimit (budget_of self.old) (rest_of self.old)) }
        ensures limit { OnOk result (IsBeforeLimit (budget_of self.old) (rest_of self.old)) }
        ensures gave { Gave (S.left (source_of self.old)) (S.left (source_of self.new)) (given_of self.old)
            (given_of self.new) }
        ensures within { given_of self.new ≤ 2 ^ 40 }
        ensures holds_line { Contains (held_of self.old) 10 → ReadNothing self.old self.new }
        ensures input_ended { IsTrue (ended_of self.old) → ReadNothing self.old self.new }
        ensures answers_line { Contains (held_of self.old) 10 → stopped_of self.old ≡ None
            → IfErr result (λ why. why ≡ OutOfMemory) }
        ensures answers_end { IsTrue (ended_of self.old) → stopped_of self.old ≡ None
            → IfErr result (λ why. why ≡ OutOfMemory) }
        ensures ends { IfOk result (λ next. Ends next (held_of self.new) (ended_of self.new)) }
        ensures cut { OnOk result (CutAtNewline (rest_of self.old) (ended_of self.new)) }
        ensures no_line { IsErrOf result NextLineRefusal.ReadFault ⊎ IsErrOf result NextLineRefusal.Long
            → stopped_of self.old ≡ None
            → IsWithoutLine (rest_of self.old) (S.left (source_of self.new)) }
    {
        if let Some(why) = self.stopped {
            return Err(why);
        }
        match self.read_line(alloc) {
            Ok(next) => Ok(next),
            Err(why) => {
                self.stopped = Some(why);
                Err(why)
            }
        }
    }

    fn read_line(&mut self, alloc: Global) -> Result<NextLine, NextLineRefusal>
        ensures next { IfOk result (λ next. IsNext next (rest_of self.old) (rest_of self.new)) }
        ensures line { IfOk result IsLine }
        ensures takes { IfOk result (λ next. Takes next (budget_of self.old) (budget_of self.new)) }
        ensures same { stopped_of self.new ≡ stopped_of self.old }
        ensures later { S.faults (source_of self.old) ≤ S.faults (source_of self.new) }
        ensures fault { IsErrOf result NextLineRefusal.ReadFault
            → Rose (S.faults (source_of self.old)) (S.faults (source_of self.new)) }
        ensures long { IsErrOf result NextLineRefusal.Long →
            (given_of self.new ≡ 2 ^ 40) × IsPastLimit (budget_of self.old) (rest_of self.old) }
        ensures limit { OnOk result (IsBeforeLimit (budget_of self.old) (rest_of self.old)) }
        ensures gave { Gave (S.left (source_of self.old)) (S.left (source_of self.new)) (given_of self.old)
            (given_of self.new) }
        ensures holds_line { Contains (held_of self.old) 10 → ReadNothing self.old self.new }
        ensures input_ended { IsTrue (ended_of self.old) → ReadNothing self.old self.new }
        ensures answers_line { Contains (held_of self.old) 10 → IfErr result (λ why. why ≡ OutOfMemory) }
        ensures answers_end { IsTrue (ended_of self.old) → IfErr result (λ why. why ≡ OutOfMemory) }
        ensures ends { IfOk result (λ next. Ends next (held_of self.new) (ended_of self.new)) }
        ensures cut { OnOk result (CutAtNewline (rest_of self.old) (ended_of self.new)) }
        ensures no_line { IsErrOf result NextLineRefusal.ReadFault ⊎ IsErrOf result NextLineRefusal.Long
            → IsWithoutLine (rest_of self.old) (S.left (source_of self.new)) }
    {
        let mut line = Line::new(alloc);
        'pieces: loop {
            if let Some(place) = find_newline(self.held.bytes()) {
                line.push(&self.held.bytes()[..place])?;
                self.held.drop_front(place + 1);
                return Ok(line.finish());
            }
            line.push(self.held.bytes())?;
            self.held.drop_front(self.held.bytes().len());
            if self.ended {
                return Ok(line.finish_at_end());
            }
            if self.given >= LIMIT {
                return Err(NextLineRefusal::Long);
            }
            let count = self.held.refill(&mut self.source, LIMIT - self.given)?;
            self.given += count as u64;
            self.ended = count == 0;
        }
    }
}
