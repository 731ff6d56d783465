// Bytes written to a sink.
ghost use Rattle.std.specs.Prelude.{OnOk};
ghost use Rattle.std.specs.Io.KnownBytes.{Appends};
ghost use Rattle.ps_base.specs.Causes.{HasCause};
ghost use Rattle.ps_wire.specs.Writing.{AppendsFront};

use ps_wire::{Failed, Sink};

// Writes the piece, a front at a time.
fn write_whole<K: Sink>(sink: &mut K, piece: &[u8]) -> Result<(), Failed>
    ensures whole { OnOk result (Appends (K.written sink.old) (K.written sink.new) piece.now) }
    ensures part { AppendsFront (K.written sink.old) (K.written sink.new) piece.now }
    ensures cause { HasCause (K.faults sink.old) (K.faults sink.new) result }
{
    let mut rest = piece;
    'pieces: while !rest.is_empty() {
        let count = sink.write(rest)?;
        rest = &rest[count..];
    }
    Ok(())
}

/// Writes the bytes and flushes. Whatever it answers, what went out is a front of them.
pub(crate) fn write_bytes<K: Sink>(sink: &mut K, bytes: &[u8]) -> Result<(), Failed>
    ensures whole { OnOk result (Appends (K.written sink.old) (K.written sink.new) bytes.now) }
    ensures part { AppendsFront (K.written sink.old) (K.written sink.new) bytes.now }
    ensures cause { HasCause (K.faults sink.old) (K.faults sink.new) result }
{
    write_whole(sink, bytes)?;
    sink.flush()?;
    Ok(())
}
