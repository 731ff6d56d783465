// The rows of people, read from trees: contacts, verified capability strings, and what is told beside the tables.
ghost use Rattle.ps_compact_codec.specs.Answer.{Tells};
ghost use Rattle.ps_compact_codec.specs.Kinds.{contact_in, counter_in, notice_in, ver_in};

use crate::parts::{Unread, features_of, jid_at, number_at};
use crate::row::StoredRow;
use crate::words::roster_of;
use ps_forms::{attr, text_of, texts_of};
use ps_namespaces::BASE;
use ps_types::{Elem, RosterRow, Text, VerRow};
use std::alloc::Global;

pub(crate) fn read_contact(alloc: Global, tree: &Elem) -> Result<StoredRow, Unread>
    ensures { Tells result (contact_in tree.now) }
{
    let account = jid_at(alloc, tree, "account")?;
    let contact = jid_at(alloc, tree, "jid")?;
    let state = roster_of(attr(tree, "subscription")).ok_or(Unread::NoRow)?;
    let groups = texts_of(alloc, tree, "group", BASE)?;
    Ok(StoredRow::Contact(RosterRow {
        account,
        contact,
        state,
        groups,
    }))
}

pub(crate) fn read_ver(alloc: Global, tree: &Elem) -> Result<StoredRow, Unread>
    ensures { Tells result (ver_in tree.now) }
{
    let ver = Text::of(alloc, attr(tree, "ver"))?;
    let features = features_of(alloc, tree)?;
    Ok(StoredRow::Ver(VerRow { ver, features }))
}

pub(crate) fn read_counter(alloc: Global, tree: &Elem) -> Result<StoredRow, Unread>
    ensures { Tells result (counter_in tree.now) }
{
    let who = jid_at(alloc, tree, "jid")?;
    let handed = number_at(tree, "handed")?;
    Ok(StoredRow::Counter { who, handed })
}

pub(crate) fn read_notice(alloc: Global, tree: &Elem) -> Result<StoredRow, Unread>
    ensures { Tells result (notice_in tree.now) }
{
    let to = jid_at(alloc, tree, "jid")?;
    let line = text_of(alloc, tree)?;
    Ok(StoredRow::Notice { to, line })
}
