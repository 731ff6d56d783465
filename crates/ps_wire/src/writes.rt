// Lines written to a sink.
ghost use Rattle.std.specs.Prelude.{◌∷◌, ◌++◌, [], OnOk};
ghost use Rattle.std.specs.Io.KnownBytes.{Appends};
ghost use Rattle.ps_base.specs.Causes.{HasCause};
ghost use Rattle.ps_wire.specs.Writing.{AppendsFront};

use crate::Sink;
use ps_base::Failed;

/// The sink failed.
#[derive(Clone, Copy, Debug, PartialEq, Eq)]
pub struct WriteFault;

impl From<Failed> for WriteFault {
    fn from(_: Failed) -> WriteFault {
        WriteFault
    }
}

/// Writes the line and a newline, and flushes. Whatever it answers, what went out is a front of these bytes.
pub fn write_line<K: Sink>(sink: &mut K, line: &[u8]) -> Result<(), WriteFault>
    ensures whole { OnOk result (Appends (K.written sink.old) (K.written sink.new) (line.now ++ 10 ∷ [])) }
    ensures part { AppendsFront (K.written sink.old) (K.written sink.new) (line.now ++ 10 ∷ []) }
    ensures cause { HasCause (K.faults sink.old) (K.faults sink.new) result }
{
    write_whole(sink, line)?;
    write_whole(sink, b"\n")?;
    sink.flush()?;
    Ok(())
}

/// Writes the piece, a front at a time.
fn write_whole<K: Sink>(sink: &mut K, piece: &[u8]) -> Result<(), WriteFault>
    ensures whole { OnOk result (Appends (K.written sink.old) (K.written sink.new) piece.now) }
    ensures part { AppendsFront (K.written sink.old) (K.written sink.new) piece.now }
    ensures cause { HasCause (K.faults sink.old) (K.faults sink.new) result }
{
    let mut rest = piece;
    'pieces: while !rest.is_empty() {
        let count = sink.write(rest)?;
        rest = &rest[count..];
    }
    Ok(())
}
