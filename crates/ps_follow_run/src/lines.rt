// The lines of an input, answered one after another.
ghost use Rattle.std.specs.Prelude.{◌≡◌, ◌≢◌, ◌⊎◌, ◌+◌, ◌<◌, ◌≤◌, ◌^◌, ◌∷◌, [], List, ℕ, None, Some, IfErr, IfNone, IfOk, IfSome, IsErrOf, IsSome, IsTrue, OnErr, OnOk, false};
ghost use Rattle.std.specs.Io.KnownBytes.{Appends, Keeps};
ghost use Rattle.ps_base.specs.Causes.{Rose};
ghost use Rattle.ps_types.specs.declared.entry.Entry.{Entry};
ghost use Rattle.ps_model.specs.Replay.{replay};
ghost use Rattle.ps_wire.specs.Reading.{Gave, IsFresh, budget_of, given_of, rest_of, source_of, stopped_of};
ghost use Rattle.ps_wire.specs.Writing.{AppendsFront};
ghost use Rattle.ps_follow_laws.specs.Answer.{answer_to};
ghost use Rattle.ps_follow.specs.Followed.{Has};
ghost use Rattle.ps_follow_run.specs.Following.{CameOf, said};
ghost use Rattle.ps_follow_run.specs.Lines.{AllSo, IsEnd, NextSo, SoFar, Told, told};
ghost use Rattle.ps_follow_run.specs.Pieces.{HasBegun};

use crate::ends::FollowEnd;
use crate::pieces::{Taking, take_rest};
use ps_follow::Follower;
use ps_types::{Arrival, Text};
use ps_wire::{
    Lines, Memory, NextLine, NextLineRefusal, Sink, Source, WriteFault, print_tree, write_line,
};
use std::alloc::Global;
use std::thread::Threads;

fn end_of_lines(why: NextLineRefusal) -> FollowEnd
    ensures fault { result ≡ FollowEnd.Fault → why ≡ NextLineRefusal.ReadFault }
    ensures from_fault { why ≡ NextLineRefusal.ReadFault → result ≡ FollowEnd.Fault }
    ensures long { result ≡ FollowEnd.Long → why ≡ NextLineRefusal.Long }
    ensures from_long { why ≡ NextLineRefusal.Long → result ≡ FollowEnd.Long }
    ensures memory { result ≡ FollowEnd.Memory → why ≡ NextLineRefusal.Memory }
    ensures only { (result ≡ FollowEnd.Fault) ⊎ ((result ≡ FollowEnd.Long) ⊎ (result ≡ FollowEnd.Memory)) }
{
    match why {
        NextLineRefusal::ReadFault => FollowEnd::Fault,
        NextLineRefusal::Long => FollowEnd::Long,
        NextLineRefusal::Memory => FollowEnd::Memory,
    }
}

// The line that comes next, as it arrives.
fn next_arrival<S: Source>(
    alloc: Global,
    lines: &mut Lines<S>,
) -> Result<Option<Arrival>, FollowEnd>
    requires going { stopped_of lines.old ≡ None }
    ensures some { IfOk result (λ next. IfSome next (λ a. CameOf (rest_of lines.old) (rest_of lines.new) (a ∷ []))) }
    ensures falls { IfOk result (λ next. IsSome next → budget_of lines.new < budget_of lines.old) }
    ensures none { IfOk result (λ next. IfNone next (CameOf (rest_of lines.old) (rest_of lines.new) [])) }
    ensures ended { IfOk result (λ next. IfNone next (IsEnd (rest_of lines.new))) }
    ensures whole { IfOk result (λ next. IfNone next (IsEnd (S.left (source_of lines.new)))) }
    ensures early { IfOk result (λ next. IfNone next (given_of lines.new < 2 ^ 40)) }
    ensures only { IfErr result (λ e. (e ≡ FollowEnd.Fault) ⊎ ((e ≡ FollowEnd.Long) ⊎ (e ≡ FollowEnd.Memory))) }
    ensures memory { IsErrOf result FollowEnd.Memory → stopped_of lines.new ≡ Some NextLineRefusal.Memory }
    ensures going { OnOk result (stopped_of lines.new ≡ None) }
    ensures later { S.faults (source_of lines.old) ≤ S.faults (source_of lines.new) }
    ensures fault { IsErrOf result FollowEnd.Fault
        → Rose (S.faults (source_of lines.old)) (S.faults (source_of lines.new)) }
    ensures long { IsErrOf result FollowEnd.Long → given_of lines.new ≡ 2 ^ 40 }
    ensures gave { Gave (S.left (source_of lines.old)) (S.left (source_of lines.new))
        (given_of lines.old) (given_of lines.new) }
{
    match lines.next(alloc) {
        Ok(NextLine::Line(bytes)) => Ok(Some(Arrival::Line {
            bytes,
            moment: None,
        })),
        Ok(NextLine::TooLong) => Ok(Some(Arrival::TooLong)),
        Ok(NextLine::End) => Ok(None),
        Err(why) => Err(end_of_lines(why)),
    }
}

// Answers the line of that number, and writes its reply, if there is one.
fn answer_line<K: Sink>(
    alloc: Global,
    follower: &Follower,
    host: &Text,
    line: u64,
    arrival: &Arrival,
    sink: &mut K,
) -> Result<(), FollowEnd>
    ensures whole { (F : List Entry) → Has follower.now F → OnOk result (Appends (K.written sink.old)
        (K.written sink.new) (said (answer_to host.now (replay F).book line arrival.now))) }
    ensures front { (F : List Entry) → Has follower.now F → IsErrOf result FollowEnd.Fault
        → AppendsFront (K.written sink.old) (K.written sink.new)
        (said (answer_to host.now (replay F).book line arrival.now)) }
    ensures none { IsErrOf result FollowEnd.Memory → Keeps (K.written sink.old) (K.written sink.new) }
    ensures only { IfErr result (λ e. (e ≡ FollowEnd.Fault) ⊎ (e ≡ FollowEnd.Memory)) }
    ensures later { K.faults sink.old ≤ K.faults sink.new }
    ensures fault { IsErrOf result FollowEnd.Fault → Rose (K.faults sink.old) (K.faults sink.new) }
{
    let Ok(answer) = follower.answer(host, line, arrival) else {
        return Err(FollowEnd::Memory);
    };
    let Some(reply) = answer.into_reply() else {
        return Ok(());
    };
    let Ok(text) = print_tree(alloc, &reply) else {
        return Err(FollowEnd::Memory);
    };
    match write_line(sink, text.as_slice()) {
        Ok(()) => Ok(()),
        Err(WriteFault) => Err(FollowEnd::Fault),
    }
}

// Takes a piece of the feed, and answers the next line, which has the number behind this one. False: no line is left.
fn follow_line<R: Threads + Sync, F: Source, S: Source, K: Sink>(
    rt: &R,
    alloc: Global,
    host: &Text,
    line: u64,
    taking: &mut Taking,
    feed: &mut F,
    lines: &mut Lines<S>,
    sink: &mut K,
) -> Result<bool, FollowEnd>
    requires going { stopped_of lines.old ≡ None }
    requires begun { HasBegun taking.old (F.left feed.old) }
    requires line { line < 2 ^ 63 }
    ensures so { (before : Told)
        → SoFar host.now before (told F.Source S.Source K.Sink feed.old lines.old sink.old) taking.old line
        → NextSo host.now before (told F.Source S.Source K.Sink feed.new lines.new sink.new) taking.new line
        (given_of lines.new) result }
    ensures begun { OnOk result (HasBegun taking.new (F.left feed.new)) }
    ensures going { OnOk result (stopped_of lines.new ≡ None) }
    ensures falls { IfOk result (λ more. IsTrue more → budget_of lines.new < budget_of lines.old) }
    ensures ended { IfOk result (λ more. (more ≡ false) → IsEnd (S.left (source_of lines.new))) }
    ensures early { IfOk result (λ more. (more ≡ false) → given_of lines.new < 2 ^ 40) }
    ensures gave { Gave (S.left (source_of lines.old)) (S.left (source_of lines.new))
        (given_of lines.old) (given_of lines.new) }
    ensures feed_later { F.faults feed.old ≤ F.faults feed.new }
    ensures input_later { S.faults (source_of lines.old) ≤ S.faults (source_of lines.new) }
    ensures sink_later { K.faults sink.old ≤ K.faults sink.new }
    ensures fault { IsErrOf result FollowEnd.Fault → Rose (F.faults feed.old) (F.faults feed.new)
        ⊎ (Rose (S.faults (source_of lines.old)) (S.faults (source_of lines.new))
        ⊎ Rose (K.faults sink.old) (K.faults sink.new)) }
{
    if let Err(why) = taking.take_piece(rt, feed) {
        return Err(why);
    }
    match next_arrival(alloc, lines) {
        Err(why) => Err(why),
        Ok(None) => Ok(false),
        Ok(Some(arrival)) => {
            match answer_line(alloc, &taking.follower, host, line + 1, &arrival, sink) {
                Ok(()) => Ok(true),
                Err(why) => Err(why),
            }
        }
    }
}

// Takes pieces of the feed, and answers line after line.
fn follow_each<R: Threads + Sync, F: Source, S: Source, K: Sink>(
    rt: &R,
    alloc: Global,
    host: &Text,
    taking: &mut Taking,
    feed: &mut F,
    lines: &mut Lines<S>,
    sink: &mut K,
) -> Result<(), FollowEnd>
    requires fresh { IsFresh lines.old }
    requires begun { HasBegun taking.old (F.left feed.old) }
    ensures so { (before : Told)
        → SoFar host.now before (told F.Source S.Source K.Sink feed.old lines.old sink.old) taking.old 0
        → AllSo host.now before (told F.Source S.Source K.Sink feed.new lines.new sink.new) taking.new
        (given_of lines.new) result }
    ensures begun { OnOk result (HasBegun taking.new (F.left feed.new)) }
    ensures ended { OnOk result (IsEnd (S.left (source_of lines.new))) }
    ensures early { OnOk result (given_of lines.new < 2 ^ 40) }
    ensures gave { Gave (S.left (source_of lines.old)) (S.left (source_of lines.new))
        (given_of lines.old) (given_of lines.new) }
    ensures feed_later { F.faults feed.old ≤ F.faults feed.new }
    ensures input_later { S.faults (source_of lines.old) ≤ S.faults (source_of lines.new) }
    ensures sink_later { K.faults sink.old ≤ K.faults sink.new }
    ensures fault { IsErrOf result FollowEnd.Fault → Rose (F.faults feed.old) (F.faults feed.new)
        ⊎ (Rose (S.faults (source_of lines.old)) (S.faults (source_of lines.new))
        ⊎ Rose (K.faults sink.old) (K.faults sink.new)) }
{
    let mut line = 0;
    'lines: loop {
        match follow_line(rt, alloc, host, line, taking, feed, lines, sink) {
            Ok(true) => line += 1,
            Ok(false) => return Ok(()),
            Err(why) => return Err(why),
        }
    }
}

/// Answers all lines, and takes the rest of the feed.
pub(crate) fn follow_all<R: Threads + Sync, F: Source, S: Source, K: Sink>(
    rt: &R,
    alloc: Global,
    host: &Text,
    taking: &mut Taking,
    feed: &mut F,
    lines: &mut Lines<S>,
    sink: &mut K,
) -> Result<(), FollowEnd>
    requires fresh { IsFresh lines.old }
    requires begun { HasBegun taking.old (F.left feed.old) }
    ensures so { (before : Told)
        → SoFar host.now before (told F.Source S.Source K.Sink feed.old lines.old sink.old) taking.old 0
        → AllSo host.now before (told F.Source S.Source K.Sink feed.new lines.new sink.new) taking.new
        (given_of lines.new) result }
    ensures taken { OnOk result (IsTrue taking.new.ended) }
    ensures ended { OnOk result (IsEnd (S.left (source_of lines.new))) }
    ensures early { OnOk result (given_of lines.new < 2 ^ 40) }
    ensures gave { Gave (S.left (source_of lines.old)) (S.left (source_of lines.new))
        (given_of lines.old) (given_of lines.new) }
    ensures feed_later { F.faults feed.old ≤ F.faults feed.new }
    ensures input_later { S.faults (source_of lines.old) ≤ S.faults (source_of lines.new) }
    ensures sink_later { K.faults sink.old ≤ K.faults sink.new }
    ensures fault { IsErrOf result FollowEnd.Fault → Rose (F.faults feed.old) (F.faults feed.new)
        ⊎ (Rose (S.faults (source_of lines.old)) (S.faults (source_of lines.new))
        ⊎ Rose (K.faults sink.old) (K.faults sink.new)) }
{
    if let Err(why) = follow_each(rt, alloc, host, taking, feed, lines, sink) {
        return Err(why);
    }
    match take_rest(rt, taking, feed) {
        Ok(()) => Ok(()),
        Err(why) => Err(why),
    }
}
