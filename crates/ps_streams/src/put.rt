// A line given to a sink.
ghost use Rattle.std.specs.Prelude.{◌∷◌, ◌++◌, [], OnOk};
ghost use Rattle.std.specs.Io.KnownBytes.{Appends};
ghost use Rattle.ps_base.specs.Causes.{HasCause};
ghost use Rattle.ps_wire.specs.Writing.{AppendsFront};

use ps_base::Bytes;
use ps_wire::{Sink, WriteFault, write_line};

// Writes the bytes, a front at a time, and flushes.
fn write_whole<K: Sink>(sink: &mut K, bytes: &[u8]) -> Result<(), WriteFault>
    ensures whole { OnOk result (Appends (K.written sink.old) (K.written sink.new) bytes.now) }
    ensures part { AppendsFront (K.written sink.old) (K.written sink.new) bytes.now }
    ensures cause { HasCause (K.faults sink.old) (K.faults sink.new) result }
{
    let mut rest = bytes;
    'pieces: while !rest.is_empty() {
        let count = sink.write(rest)?;
        rest = &rest[count..];
    }
    sink.flush()?;
    Ok(())
}

/// Writes the line and its newline together, so that one call of the system may take both, and flushes. Whatever it answers, what went out is a front of
/// these bytes.
pub(crate) fn put_line<K: Sink>(sink: &mut K, line: Bytes) -> Result<(), WriteFault>
    ensures whole { OnOk result (Appends (K.written sink.old) (K.written sink.new) (line ++ 10 ∷ [])) }
    ensures part { AppendsFront (K.written sink.old) (K.written sink.new) (line ++ 10 ∷ []) }
    ensures cause { HasCause (K.faults sink.old) (K.faults sink.new) result }
{
    let mut bytes = line.into_vec();
    match bytes.push(b'\n') {
        Ok(()) => write_whole(sink, bytes.as_slice()),
        Err(_) => write_line(sink, bytes.as_slice()),
    }
}
