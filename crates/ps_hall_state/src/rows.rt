// The row of a host, and how it changes.
ghost use Rattle.std.specs.Prelude.{◌≡◌, ◌<◌, ◌^◌, true, false, not, length, vec_len, vec_capacity};
ghost use Rattle.std.specs.List.{list_any};
ghost use Rattle.ps_model.specs.declared.steps.Role.{Role};
ghost use Rattle.ps_hall_state.specs.Rows.{HasPlace, OfRow, RowEnds, RowLandsBy, RowSays, TakesFirst, Turns};
ghost use Rattle.ps_hall_state.specs.Next.{HasLanded, HasNone, HasNotLanded, HasReply};

use crate::state::{HostRow, Landing, Waiting};
use ps_base::Bytes;
use ps_types::Jid;

// One line more of the host, which may get a reply.
fn say(row: &mut HostRow, step: u64, reply: Option<Bytes>)
    requires room { vec_len row.old.waiting < vec_capacity row.old.waiting }
    requires few { row.old.line < 2 ^ 63 }
    ensures says { RowSays row.old row.new step reply }
{
    row.line += 1;
    match reply {
        Some(reply) => row.waiting.push_reserved(Waiting { step, reply }),
        None => {}
    }
}

/// One line more of the row at a place.
pub(crate) fn say_at(rows: &mut Vec<HostRow>, at: usize, step: u64, reply: Option<Bytes>)
    requires here { at < length rows.old.items }
    requires room { OfRow rows.old.items at HasPlace }
    ensures says { Turns rows.old.items rows.new.items at (λ row now. RowSays row now step reply) }
{
    say(&mut rows[at], step, reply);
}

/// The reader of the row at a place has ended.
pub(crate) fn end_reader(rows: &mut Vec<HostRow>, at: usize)
    requires here { at < length rows.old.items }
    ensures ends { Turns rows.old.items rows.new.items at (RowEnds Role.Reader) }
{
    rows[at].reader_ended = true;
}

/// The writer of the row at a place has ended.
pub(crate) fn end_writer(rows: &mut Vec<HostRow>, at: usize)
    requires here { at < length rows.old.items }
    ensures ends { Turns rows.old.items rows.new.items at (RowEnds Role.Writer) }
{
    rows[at].writer_ended = true;
}

// Whether the first reply of a row may be taken.
fn may_take(row: &HostRow, flushed: u64) -> bool
    ensures yes { result ≡ true → HasReply row.now flushed }
    ensures no { result ≡ false → HasNone row.now.waiting.items flushed }
{
    !row.waiting.is_empty() && row.waiting[0].step <= flushed
}

/// Whether the first reply of the row at a place may be taken.
pub(crate) fn may_take_at(rows: &Vec<HostRow>, at: usize, flushed: u64) -> bool
    requires here { at < length rows.now.items }
    ensures yes { OfRow rows.now.items at (λ row. result ≡ true → HasReply row flushed) }
    ensures no { OfRow rows.now.items at (λ row. result ≡ false → HasNone row.waiting.items flushed) }
{
    may_take(&rows[at], flushed)
}

// Takes the first reply of a row.
fn take_of(row: &mut HostRow) -> Bytes
    requires some { 0 < length row.old.waiting.items }
    ensures takes { TakesFirst result row.old row.new }
{
    let Waiting { step: _, reply } = row.waiting.remove(0);
    reply
}

/// Takes the first reply of the row at a place.
pub(crate) fn take_at(rows: &mut Vec<HostRow>, at: usize) -> Bytes
    requires here { at < length rows.old.items }
    requires some { OfRow rows.old.items at (λ row. 0 < length row.waiting.items) }
    ensures takes { Turns rows.old.items rows.new.items at (TakesFirst result) }
{
    take_of(&mut rows[at])
}

/// Whether some reader runs.
pub(crate) fn some_reads(rows: &Vec<HostRow>) -> bool
    ensures { result ≡ list_any (λ row. not row.reader_ended) rows.now.items }
{
    rows.iter().any(|row| !row.reader_ended)
}

// Whether what a writer recorded is flushed.
fn has_landed(row: &HostRow, flushed: u64) -> bool
    ensures yes { result ≡ true → HasLanded row.now flushed }
    ensures no { result ≡ false → HasNotLanded row.now flushed }
{
    match &row.landing {
        None => true,
        Some(landing) => landing.step <= flushed,
    }
}

/// Whether what the writer at a place recorded is flushed.
pub(crate) fn has_landed_at(rows: &Vec<HostRow>, at: usize, flushed: u64) -> bool
    requires here { at < length rows.now.items }
    ensures yes { OfRow rows.now.items at (λ row. result ≡ true → HasLanded row flushed) }
    ensures no { OfRow rows.now.items at (λ row. result ≡ false → HasNotLanded row flushed) }
{
    has_landed(&rows[at], flushed)
}

/// The writer of the row at a place has recorded a notice to this address by this step.
pub(crate) fn land_at(rows: &mut Vec<HostRow>, at: usize, to: Jid, step: u64)
    requires here { at < length rows.old.items }
    ensures lands { Turns rows.old.items rows.new.items at (RowLandsBy to step) }
{
    rows[at].landing = Some(Landing { to, step });
}
