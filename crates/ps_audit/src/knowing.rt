// Who is known at a node.
ghost use Rattle.std.specs.Prelude.{◌≡◌, ◌++◌, IfOk, OnOk, option_to_list};
ghost use Rattle.ps_access.specs.Tables.{book_of};
ghost use Rattle.ps_audit.specs.Listed.{affil_whos, contact_whos, sub_whos};
ghost use Rattle.ps_audit_laws.specs.Readers.{known};
ghost use Rattle.ps_model.specs.Access.{account_of as account_of_row};
ghost use Rattle.ps_nodes.specs.NodeRows.{row_seen};

use ps_access::{Tables, is_account_address};
use ps_base::Memory;
use ps_nodes::NodeRef;
use ps_roster::Roster;
use ps_types::{AffilRow, Jid, RosterRow, SubRow};
use std::alloc::Global;

// The account of a node: that of a personal node, and the creator of another.
fn account_of<'a>(row: &NodeRef<'a>) -> &'a Jid
    ensures { result.now ≡ account_of_row (row_seen row.now) }
{
    if is_account_address(&row.key.service) {
        &row.key.service
    } else {
        row.creator
    }
}

fn add_affiliated(alloc: Global, whos: &mut Vec<Jid>, rows: &[AffilRow]) -> Result<(), Memory>
    ensures { OnOk result (whos.new.items ≡ whos.old.items ++ affil_whos rows.now) }
{
    'rows: for row in rows {
        whos.push(row.who.to_bare(alloc)?)?;
    }
    Ok(())
}

fn add_subscribers(alloc: Global, whos: &mut Vec<Jid>, rows: &[SubRow]) -> Result<(), Memory>
    ensures { OnOk result (whos.new.items ≡ whos.old.items ++ sub_whos rows.now) }
{
    'rows: for row in rows {
        whos.push(row.who.to_bare(alloc)?)?;
    }
    Ok(())
}

// Adds the contact of a row, if it is the account's.
fn add_contact(
    alloc: Global,
    whos: &mut Vec<Jid>,
    account: &Jid,
    slot: &Option<RosterRow>,
) -> Result<(), Memory>
    ensures { OnOk result
        (whos.new.items ≡ whos.old.items ++ contact_whos account.now (option_to_list slot.now)) }
{
    if let Some(row) = slot {
        if account.same_bare(&row.account) {
            whos.push(row.contact.to_bare(alloc)?)?;
        }
    }
    Ok(())
}

fn add_contacts(
    alloc: Global,
    whos: &mut Vec<Jid>,
    account: &Jid,
    roster: &Roster,
) -> Result<(), Memory>
    ensures { OnOk result (whos.new.items ≡ whos.old.items ++ contact_whos account.now roster.now.rows) }
{
    'rows: for slot in roster.places() {
        add_contact(alloc, whos, account, slot)?;
    }
    Ok(())
}

/// The bare addresses that are known at a node: the account of a personal node, those with an affiliation, those with a subscription, and those in the
/// roster of the node's account. Some of them stand more than once.
pub(crate) fn known_at(
    alloc: Global,
    tables: &Tables,
    row: &NodeRef<'_>,
) -> Result<Vec<Jid>, Memory>
    ensures { IfOk result (λ whos. whos.items ≡ known (book_of tables.now) (row_seen row.now)) }
{
    let mut whos = Vec::new(alloc);
    if is_account_address(&row.key.service) {
        whos.push(row.key.service.clone()?)?;
    }
    add_affiliated(alloc, &mut whos, &tables.affils.of_node(alloc, row.key)?)?;
    add_subscribers(alloc, &mut whos, &tables.subs.of_node(alloc, row.key)?)?;
    add_contacts(alloc, &mut whos, account_of(row), &tables.roster)?;
    Ok(whos)
}
