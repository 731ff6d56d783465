// The list of those who may read a node.
ghost use Rattle.std.specs.Prelude.{◌≡◌, true, IfOk, map};
ghost use Rattle.std.specs.List.{AllByRecursion};
ghost use Rattle.ps_access.specs.Tables.{book_of};
ghost use Rattle.ps_audit.specs.Listed.{IsListOf};
ghost use Rattle.ps_audit_laws.specs.Readers.{by_model, known};
ghost use Rattle.ps_model.specs.Access.{read};
ghost use Rattle.ps_nodes.specs.NodeRows.{row_seen};
ghost use Rattle.ps_types.specs.Address.{IsAddress};
ghost use Rattle.ps_types.specs.Nodes.{stands};

use crate::knowing::known_at;
use ps_access::{Tables, verdict_read};
use ps_base::Memory;
use ps_fanout::in_order;
use ps_nodes::NodeRef;
use ps_types::{Access, Condition, Jid, NodeKey, Rule, Verdict};
use std::alloc::Global;

/// Who may read a node.
#[derive(Drop)]
pub struct ReaderList {
    /// The known addresses in the order of their octets, each with its verdict.
    pub known: Vec<(Jid, Verdict)>,
    /// The verdict of each address that isn't known.
    pub others: Verdict,
}

// What holds of an address without affiliation and subscription that is in no roster (XEP-0060 §4.5).
fn verdict_of_others(model: Access) -> Verdict
    ensures { result ≡ by_model model }
{
    match model {
        Access::Everyone => Verdict::Granted(Rule::ByOpen),
        Access::Presence => Verdict::Denied(Condition::C18),
        Access::Roster => Verdict::Denied(Condition::C19),
        Access::Authorize => Verdict::Denied(Condition::C20),
        Access::Whitelist => Verdict::Denied(Condition::C17),
    }
}

// Each address with its verdict.
fn with_verdicts(
    alloc: Global,
    tables: &Tables,
    node: &NodeKey,
    whos: Vec<Jid>,
) -> Result<Vec<(Jid, Verdict)>, Memory>
    requires stands { stands node.now tables.now.nodes.rows ≡ true }
    ensures { IfOk result
        (λ v. v.items ≡ map (λ who. (who, read (book_of tables.now) node.now who)) whos.items) }
{
    let mut lines = Vec::with_capacity(alloc, whos.len())?;
    for who in whos {
        let verdict = verdict_read(tables, node, &who);
        lines.push((who, verdict))?;
    }
    Ok(lines)
}

/// The list of a node that stands: its known addresses, and what holds of all others.
pub(crate) fn reader_list(
    alloc: Global,
    tables: &Tables,
    row: &NodeRef<'_>,
) -> Result<ReaderList, Memory>
    requires stands { stands row.now.key.now tables.now.nodes.rows ≡ true }
    requires addresses { AllByRecursion IsAddress (known (book_of tables.now) (row_seen row.now)) }
    ensures { IfOk result (λ list. IsListOf (book_of tables.now) (row_seen row.now) list) }
{
    let whos = in_order(alloc, known_at(alloc, tables, row)?)?;
    let known = with_verdicts(alloc, tables, row.key, whos)?;
    let others = verdict_of_others(row.config.access_model);
    Ok(ReaderList { known, others })
}
