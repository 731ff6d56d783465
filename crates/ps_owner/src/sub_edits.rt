// The subscriptions that an owner's request is about, as they are and as they become.
ghost use Rattle.std.specs.Prelude.{◌≡◌, IfOk, map};
ghost use Rattle.ps_owner.specs.Edits.{IsSubEdit, asked_sub};

use ps_access::{asked_state, new_sub, set_asked_subs};
use ps_base::Memory;
use ps_subs::Subs;
use ps_types::{AskRow, NodeKey, SubOptions, SubRow};
use std::alloc::Global;

/// The rows of the addresses that are asked for, before and after, with the last other row of the table. So it shows whether the whole
/// table is as it was, where a row that goes and comes back is the last one.
pub struct SubEdit {
    /// A row for each address that is asked for.
    pub asked: Subs,
    pub before: Vec<SubRow>,
    pub after: Vec<SubRow>,
}

// By hand, so that an edit is let go by one call wherever a function ends.
impl Drop for SubEdit {
    fn drop(self) {
        let SubEdit {
            asked: _,
            before: _,
            after: _,
        } = self;
    }
}

fn asked_row(node: &NodeKey, row: &AskRow) -> Result<SubRow, Memory>
    ensures { IfOk result (λ r. r ≡ asked_sub node.now row.now) }
{
    let options = SubOptions {
        items: true,
        deep: false,
    };
    new_sub(node, &row.jid, asked_state(row), options)
}

// A row for each that is asked for, whatever it says.
fn asked_rows(alloc: Global, node: &NodeKey, rows: &[AskRow]) -> Result<Subs, Memory>
    ensures { IfOk result (λ t. t.rows ≡ map (asked_sub node.now) rows.now) }
{
    let mut asked = Subs::new(alloc)?;
    for row in rows {
        let row = asked_row(node, row)?;
        asked.reserve(1)?;
        asked.add(row);
    }
    Ok(asked)
}

fn table_of(alloc: Global, rows: &[SubRow]) -> Result<Subs, Memory>
    ensures { IfOk result (λ t. t.rows ≡ rows.now) }
{
    let mut table = Subs::new(alloc)?;
    for row in rows {
        table.reserve(1)?;
        table.add(row.clone()?);
    }
    Ok(table)
}

/// What becomes of the rows as they are set in order.
pub fn edit_subs(
    alloc: Global,
    subs: &Subs,
    node: &NodeKey,
    rows: &[AskRow],
) -> Result<SubEdit, Memory>
    ensures edit { IfOk result (λ e. IsSubEdit e node.now rows.now subs.now.rows) }
{
    let asked = asked_rows(alloc, node, rows)?;
    let before = subs.concerned(alloc, node, &asked)?;
    let mut table = table_of(alloc, before.as_slice())?;
    set_asked_subs(&mut table, node, rows)?;
    let after = table.concerned(alloc, node, &asked)?;
    Ok(SubEdit {
        asked,
        before,
        after,
    })
}
