// Lines that are read, and ends that fail.
use crate::trees::padded;
use ps_wire::{
    Failed, FileSink, FileSource, Lines, LinesRefusal, MemSink, MemSource, NextLine,
    NextLineRefusal, Source, WriteFault, write_line,
};
use std::fs;
use std::process::Abort;
use std::test::Fail;

// Five answers of a reader over these bytes, whose reads of these numbers fail, each behind a plus where a whole line was held before it.
fn answers(rt: &HostRuntime, bytes: &[u8], failing: &[u64]) -> Result<String, Fail> {
    let source = MemSource::new(rt.alloc(), bytes, failing)?;
    let mut lines = match Lines::new(rt.alloc(), source) {
        Ok(lines) => lines,
        Err(LinesRefusal { source: _ }) => return Err(Fail::from("no memory for a reader")),
    };
    let told = five(rt, &mut lines);
    let _ = lines.close();
    told
}

// What a reader answers; of a line its text, if it is short.
fn word_of(next: &Result<NextLine, NextLineRefusal>) -> &str {
    match next {
        Ok(NextLine::Line(line)) => match std::str::from_utf8(line.as_slice()) {
            Ok(text) if line.len() < 9 => text,
            _ => "(many)",
        },
        Ok(NextLine::TooLong) => "(too long)",
        Ok(NextLine::End) => "(end)",
        Err(NextLineRefusal::ReadFault) => "(fault)",
        Err(_) => "(other)",
    }
}

fn five(rt: &HostRuntime, lines: &mut Lines<MemSource>) -> Result<String, Fail> {
    let mut told = String::new(rt.alloc());
    for _ in 0..5 {
        if lines.holds_line() {
            told.push_str("+")?;
        }
        let next = lines.next(rt.alloc());
        told.push_str(word_of(&next))?;
        told.push_str(";")?;
    }
    Ok(told)
}

// A line of the greatest length, one that is longer, and a last one.
fn put_long_lines(rt: &HostRuntime, text: &mut String) -> Result<(), Fail> {
    let line = padded(rt, "", 262_144)?;
    text.push_str(line.as_str())?;
    text.push_str("\n ")?;
    text.push_str(line.as_str())?;
    text.push_str("\nlast\n")?;
    Ok(())
}

#[test]
fn a_line_ends_at_its_newline_or_at_the_end(rt: HostRuntime) -> Result<(), Fail> {
    assert_eq!(rt;
        answers(&rt, b"one\n\ntwo", &[])?.as_str(),
        "one;+;two;(end);(end);"
    );

    let mut text = String::new(rt.alloc());
    put_long_lines(&rt, &mut text)?;
    let told = answers(&rt, text.as_bytes(), &[])?;
    assert_eq!(rt; told.as_str(), "(many);(too long);+last;(end);(end);");
    Ok(())
}

#[test]
fn ends_fail_where_they_are_told(rt: HostRuntime) -> Result<(), Fail> {
    let told = answers(&rt, b"one\ntwo", &[2])?;
    assert_eq!(rt; told.as_str(), "one;(fault);(fault);(fault);(fault);");

    let mut sink = MemSink::new(rt.alloc(), &[5])?;
    fails_at_the_second(&rt, &mut sink);
    Ok(())
}

// Writes two lines to a sink whose fifth call fails.
fn fails_at_the_second(rt: &impl Abort, sink: &mut MemSink) {
    assert_eq!(rt; write_line(sink, b"one"), Ok(()));
    assert_eq!(rt; write_line(sink, b"two"), Err(WriteFault));
    assert_eq!(rt; sink.bytes(), b"one\ntwo".as_slice());
    assert_eq!(rt; sink.refused(), 0);
}

#[test]
fn files_count_their_faults(rt: HostRuntime) -> Result<(), Fail> {
    let mut room = [0u8; 4];
    // A folder opens and can't be read; the last device is always full.
    for (path, want, faults) in [
        ("/dev/zero", Ok(4), 3),
        ("/dev/null", Ok(0), 3),
        ("/", Err(Failed), 4),
    ] {
        let mut source = FileSource::new(fs::open(&rt, path)?, 3);
        assert_eq!(rt; source.read(&mut room), want, "{path}");
        assert_eq!(rt; source.faults(), faults, "{path}");
    }
    for (path, want, faults) in [("/dev/null", Ok(()), 0), ("/dev/full", Err(WriteFault), 1)] {
        let mut sink = FileSink::new(fs::create(&rt, path)?, 0);
        assert_eq!(rt; write_line(&mut sink, b"one"), want, "{path}");
        assert_eq!(rt; sink.faults(), faults, "{path}");
    }
    Ok(())
}
