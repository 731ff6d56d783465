// Lines that a mirror takes, one after the other, and the report of a source that has them.
ghost use Rattle.std.specs.Prelude.{◌≤◌};

use crate::notices::line_named;
use ps_mirror::{Mirror, MirrorRun, Taken, item_line, run_mirror};
use ps_types::{Jid, Text};
use ps_wire::{MemSource, NextLineRefusal};
use std::process::Abort;
use std::test::Fail;

// How many items stay, which lines come, what each is to a mirror, and the lines of the report.
const ROWS: &str = "\
10:first first reply empty:changed repeat other other:first_shown
10:first gone first gone:changed changed repeat repeat:
10:widest first again:changed repeat repeat:widest_shown
10:first second again:changed changed changed:second_shown again_shown
2:first second again:changed changed changed:second_shown again_shown
1:first second again:changed changed changed:again_shown
1:first first reply second:changed repeat other changed:second_shown
10:first second purged:changed changed changed:
10:first second other_purged:changed changed other:first_shown second_shown
10:other_item other_service other_address two_items two_payloads no_id:other other other other other other:
10:zero padded wide:other other other:
10:empty:other:";

// The service and the node of a mirror, and the address that is told.
#[derive(Drop)]
struct MirrorWords {
    service: Jid,
    node: Text,
    who: Jid,
}

fn mirror_words(rt: &HostRuntime) -> Result<MirrorWords, Fail> {
    Ok(MirrorWords {
        service: Jid::read(rt.alloc(), b"pubsub.example")?,
        node: Text::of(rt.alloc(), "news")?,
        who: Jid::read(rt.alloc(), b"bob@b.example")?,
    })
}

fn most_of(text: &str) -> u64
    ensures some { 1 ≤ result }
    ensures most { result ≤ 1000 }
{
    match text {
        "1" => 1,
        "2" => 2,
        _ => 10,
    }
}

// The lines of these names, each with its newline.
fn text_of(rt: &HostRuntime, names: &str) -> Result<String, Fail> {
    let mut text = String::new(rt.alloc());
    for name in names.split(' ') {
        if !name.is_empty() {
            text.push_str(line_named(name))?;
            text.push_str("\n")?;
        }
    }
    Ok(text)
}

fn word_of(taken: Taken) -> &'static str {
    match taken {
        Taken::Changed => "changed",
        Taken::Repeat => "repeat",
        Taken::Other => "other",
    }
}

// What each line is to the mirror.
fn taken(rt: &HostRuntime, mirror: &mut Mirror, lines: &str) -> Result<String, Fail> {
    let mut told = String::new(rt.alloc());
    for line in lines.lines() {
        if !told.is_empty() {
            told.push_str(" ")?;
        }
        told.push_str(word_of(mirror.take(rt.alloc(), line.as_bytes())?))?;
    }
    Ok(told)
}

fn push_bytes(text: &mut String, bytes: &[u8]) -> Result<(), Fail> {
    text.push_str(std::str::from_utf8(bytes)?)?;
    Ok(())
}

// The items of the mirror as they are reported.
fn shown(rt: &HostRuntime, mirror: &Mirror) -> Result<String, Fail> {
    let mut text = String::new(rt.alloc());
    for item in mirror.items() {
        push_bytes(&mut text, item_line(rt.alloc(), item)?.as_slice())?;
        text.push_str("\n")?;
    }
    Ok(text)
}

// The report of a source that has this text and fails at these reads, or why there is none.
fn reported(
    rt: &HostRuntime,
    words: &MirrorWords,
    max: u64,
    text: &str,
    failing: &[u64],
) -> Result<String, Fail>
    requires some { 1 ≤ max }
    requires most { max ≤ 1000 }
{
    let source = MemSource::new(rt.alloc(), text.as_bytes(), failing)?;
    let MirrorRun { source: _, report } = run_mirror(
        rt.alloc(),
        &words.service,
        &words.node,
        &words.who,
        max,
        source,
    );
    let mut told = String::new(rt.alloc());
    match report {
        Ok(lines) => {
            for line in lines.as_slice() {
                push_bytes(&mut told, line.as_slice())?;
            }
        }
        Err(NextLineRefusal::ReadFault) => told.push_str("fault")?,
        Err(_) => told.push_str("other")?,
    }
    Ok(told)
}

fn holds(rt: &HostRuntime, words: &MirrorWords, row: &str) -> Result<bool, Fail> {
    let Some((max, rest)) = row.split_once(':') else {
        return Ok(false);
    };
    let Some((names, rest)) = rest.split_once(':') else {
        return Ok(false);
    };
    let Some((wanted, report)) = rest.split_once(':') else {
        return Ok(false);
    };
    let max = most_of(max);
    let lines = text_of(rt, names)?;
    let report = text_of(rt, report)?;
    let mut mirror = Mirror::new(rt.alloc(), &words.service, &words.node, &words.who, max)?;
    Ok(
        taken(rt, &mut mirror, lines.as_str())?.as_str() == wanted
            && shown(rt, &mirror)?.as_str() == report.as_str()
            && reported(rt, words, max, lines.as_str(), &[])?.as_str() == report.as_str(),
    )
}

// A line that is longer than lines may be is passed over.
fn passes_over(rt: &HostRuntime, words: &MirrorWords) -> Result<bool, Fail> {
    let mut text = text_of(rt, "first second")?;
    let _ = text.pop();
    for _ in 0..262_144 {
        text.push_str(" ")?;
    }
    let told = reported(rt, words, 10, text.as_str(), &[])?;
    Ok(told.as_str() == text_of(rt, "first_shown")?.as_str())
}

#[test]
fn a_mirror_holds_what_it_was_told(rt: HostRuntime) -> Result<(), Fail> {
    let words = mirror_words(&rt)?;
    for row in ROWS.lines() {
        let same = holds(&rt, &words, row)?;
        assert!(rt; same, "{row}");
    }
    let passes = passes_over(&rt, &words)?;
    assert!(rt; passes);
    let told = reported(&rt, &words, 10, line_named("first"), &[2])?;
    assert_eq!(rt; told.as_str(), "fault");
    Ok(())
}
