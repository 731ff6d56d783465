// States go through the tables.
ghost use Rattle.ps_hall_state.specs.Stand.{IsStanding};

use crate::calls::{ends_reader, ends_writer, fails, flushes, goes, lays, next, records};
use crate::lines::line_of;
use crate::opened::opened;
use crate::rows::{BROKEN, FILLED, GONE, HANDED, RUNS, SHOWN, UNFIT, UNWRITTEN};
use ps_hall_state::{ArriveRefusal, HandedRefusal, Limits, NextLine, Outcome, Receipt, State};
use ps_types::Jid;
use std::alloc::Global;
use std::process::Abort;
use std::test::Fail;
use std::thread::Threads;

fn refusal_of(why: ArriveRefusal) -> &'static str {
    match why {
        ArriveRefusal::Again => "again",
        ArriveRefusal::Closed => "closed",
        ArriveRefusal::Store => "store",
        _ => "another",
    }
}

fn outcome_of(outcome: Outcome) -> &'static str {
    match outcome {
        Outcome::Committed => "committed",
        Outcome::Answered => "answered",
        Outcome::Silent => "silent",
        _ => "full",
    }
}

// Whether this came of a line.
fn is_receipt(came: Result<Receipt, ArriveRefusal>, want: &str) -> Result<bool, Fail> {
    match came {
        Ok(Receipt { place, outcome }) => match want.split_once(' ') {
            Some((at, word)) => Ok(place == at.parse::<u64>()? && outcome_of(outcome) == word),
            None => Ok(false),
        },
        Err(why) => Ok(refusal_of(why) == want),
    }
}

fn is_recorded(came: Result<(), HandedRefusal>, want: &str) -> bool {
    match came {
        Ok(()) => want == "ok",
        Err(HandedRefusal::Full) => want == "full",
        Err(HandedRefusal::Store) => want == "store",
        Err(_) => false,
    }
}

// Whether the writer is to do this next.
fn is_next(alloc: Global, next: NextLine, want: &str) -> Result<bool, Fail> {
    let (kind, word) = want.split_once(' ').unwrap_or((want, ""));
    match next {
        NextLine::Reply(reply) => {
            Ok(kind == "reply" && reply.as_slice() == line_of(word).as_bytes())
        }
        NextLine::Notice(to, line) => {
            let (who, text) = line_of(word).split_once(' ').unwrap_or(("", ""));
            let to = to.text(alloc)?;
            let same = to.as_str() == who && line.as_slice() == text.as_bytes();
            Ok(kind == "notice" && same)
        }
        NextLine::NotYet => Ok(want == "waits"),
        NextLine::Over => Ok(want == "over"),
    }
}

fn is_frame(len: Option<u64>, want: &str) -> Result<bool, Fail> {
    match len {
        Some(len) => Ok(want != "none" && len == want.parse()?),
        None => Ok(want == "none"),
    }
}

// So many messages come, and each is answered.
fn fill(
    rt: &(impl Abort + Threads + Sync),
    alloc: Global,
    state: &mut State,
    many: u64,
) -> Result<(), Fail>
    requires standing { IsStanding state.old }
    ensures standing { IsStanding state.new }
{
    'lines: for _ in 0..many {
        let came = lays(rt, alloc, state, line_of("message"))?;
        assert!(rt; is_receipt(came, "1 answered")?);
    }
    Ok(())
}

// Whether this comes of what is done.
fn comes(
    rt: &(impl Abort + Threads + Sync),
    alloc: Global,
    state: &mut State,
    done: &str,
    want: &str,
) -> Result<bool, Fail>
    requires standing { IsStanding state.old }
    ensures standing { IsStanding state.new }
{
    if let Some(word) = done.strip_prefix("lay ") {
        let came = lays(rt, alloc, state, line_of(word))?;
        return is_receipt(came, want);
    }
    if let Some(many) = done.strip_prefix("fill ") {
        fill(rt, alloc, state, many.parse()?)?;
        return Ok(true);
    }
    if done == "next" {
        let next = next(rt, state)?;
        return is_next(alloc, next, want);
    }
    if let Some(who) = done.strip_prefix("record ") {
        let to = Jid::read(alloc, who.as_bytes())?;
        let came = records(rt, state, &to);
        return Ok(is_recorded(came, want));
    }
    if done == "gone" {
        let came = goes(rt, state);
        return Ok(is_recorded(came, want));
    }
    if done == "flush" {
        let len = flushes(rt, state);
        return is_frame(len, want);
    }
    if done == "end reader" {
        ends_reader(rt, state);
        return Ok(true);
    }
    if done == "end writer" {
        ends_writer(rt, state);
        return Ok(true);
    }
    fails(rt, state);
    Ok(done == "fault")
}

fn runs(
    rt: &(impl Abort + Threads + Sync),
    alloc: Global,
    state: &mut State,
    rows: &str,
) -> Result<(), Fail>
    requires standing { IsStanding state.old }
    ensures standing { IsStanding state.new }
{
    'rows: for line in rows.lines() {
        let (done, want) = line.split_once(" = ").unwrap_or((line, ""));
        let same = comes(rt, alloc, state, done, want)?;
        assert!(rt; same, "{line}");
    }
    Ok(())
}

// Of two frames the first is flushed: its replies are shown, and no others.
fn shows_in_turn(
    rt: &(impl Abort + Threads + Sync),
    alloc: Global,
    state: &mut State,
) -> Result<(), Fail>
    requires standing { IsStanding state.old }
{
    runs(
        rt,
        alloc,
        state,
        "lay create = 1 committed\nlay message = 2 answered",
    )?;
    assert!(rt; !state.rows.is_empty() && state.steps < 1000);
    state.settle(1, 2);
    let first = state.next(0)?;
    assert!(rt; is_next(alloc, first, "reply made")?);
    assert!(rt; !state.rows.is_empty() && state.steps < 1000);
    let second = state.next(0)?;
    assert!(rt; is_next(alloc, second, "waits")?);
    Ok(())
}

// The store of a state may become so long by changes, and by what records and ends.
fn begins(
    rt: &(impl Abort + Threads + Sync),
    alloc: Global,
    (changes, whole, rows): (u64, u64, &str),
) -> Result<(), Fail> {
    let mut state = opened(rt, alloc, Limits { changes, whole })?;
    if rows.is_empty() {
        return shows_in_turn(rt, alloc, &mut state);
    }
    runs(rt, alloc, &mut state, rows)
}

// The store has 31 bytes, and a frame five beside its entries.
#[test]
fn a_state_does_as_its_tables_say(rt: HostRuntime) -> Result<(), Fail> {
    for table in [
        (10_000, 10_000, SHOWN),
        (10_000, 10_000, HANDED),
        (10_000, 10_000, RUNS),
        (10_000, 10_000, FILLED),
        (10_000, 10_000, BROKEN),
        (10_000, 10_000, UNWRITTEN),
        (31 + 5 + 212 - 1, 10_000, UNFIT),
        (10_000, 31 + 5 + 12, GONE),
        (10_000, 10_000, ""),
    ] {
        begins(&rt, rt.alloc(), table)?;
    }
    Ok(())
}
