// The notices that aren't handed, as entries.
ghost use Rattle.std.specs.Prelude.{◌≡◌, ◌++◌, false, IfOk, IfSome, OnOk, IsUtf8, find, map, option_to_list};
ghost use Rattle.ps_base.specs.Rows.{without_first};
ghost use Rattle.ps_types.specs.Same.{same_bare};
ghost use Rattle.ps_types.specs.declared.jid.Jid.{Jid};
ghost use Rattle.ps_book_laws.specs.Keys.{AreApart};
ghost use Rattle.ps_compact.specs.Rows.{AreReady, AreReadyAt, IsReady, notice_entries, notices_of};
ghost use Rattle.ps_outbox.specs.Boxes.{is_to, queue};

use ps_base::Memory;
use ps_compact_export::notice_entry;
use ps_outbox::Outboxes;
use ps_types::{Entry, Jid, Notice, Text, TextRefusal};
use std::alloc::Global;

// The line of a notice.
fn line_of(alloc: Global, notice: &Notice) -> Result<Text, Memory>
    requires utf8 { IsUtf8 notice.now.line }
    ensures { IfOk result (λ t. t ≡ notice.now.line) }
{
    match Text::read(alloc, notice.line.as_slice()) {
        Ok(text) => Ok(text),
        Err(TextRefusal::Memory) => Err(Memory),
        Err(TextRefusal::NotUtf8) => unreachable!(),
    }
}

// Moves the first notice of an address from its queue to the entries.
fn move_first(
    alloc: Global,
    entries: &mut Vec<Entry>,
    queues: &mut Outboxes,
    who: &Jid,
    count: u64,
) -> Result<(), Memory>
    requires ready { IfSome (find (is_to who.now) queues.old.waiting) (IsReady count) }
    ensures entries { OnOk result (entries.new.items ≡ entries.old.items
        ++ notice_entries (option_to_list (find (is_to who.now) queues.old.waiting))) }
    ensures queues { OnOk result (queues.new.waiting ≡ without_first (is_to who.now) queues.old.waiting) }
{
    if let Some(notice) = queues.peek(who, count) {
        let line = line_of(alloc, notice)?;
        entries.push(notice_entry(alloc, &notice.to, line)?)?;
    }
    queues.drop_first(who);
    Ok(())
}

// Moves all notices of an address.
fn move_queue(
    alloc: Global,
    entries: &mut Vec<Entry>,
    queues: &mut Outboxes,
    who: &Jid,
    count: u64,
) -> Result<(), Memory>
    requires ready { AreReady count (queue who.now queues.old.waiting) }
    ensures entries { OnOk result (entries.new.items
        ≡ entries.old.items ++ notice_entries (queue who.now queues.old.waiting)) }
    ensures others { OnOk result ((other : Jid) → same_bare other who.now ≡ false
        → queue other queues.new.waiting ≡ queue other queues.old.waiting) }
{
    'notices: for at in 0..queues.pending(who) {
        let _ = at;
        move_first(alloc, entries, queues, who, count)?;
    }
    Ok(())
}

/// Moves the notices of these addresses, of which `count` entries are durable.
pub(crate) fn move_queues(
    alloc: Global,
    entries: &mut Vec<Entry>,
    queues: &mut Outboxes,
    whos: &Vec<Jid>,
    count: u64,
) -> Result<(), Memory>
    requires apart { AreApart same_bare whos.now.items }
    requires ready { AreReadyAt count queues.old.waiting whos.now.items }
    ensures { OnOk result (entries.new.items
        ≡ entries.old.items ++ notice_entries (notices_of queues.old.waiting whos.now.items)) }
{
    'whos: for who in whos {
        move_queue(alloc, entries, queues, who, count)?;
    }
    Ok(())
}
