// Accounts, and what an address is at a node.
ghost use Rattle.std.specs.Prelude.{◌≡◌};
ghost use Rattle.ps_model.specs.Access.{is_account, is_own_account, affiliation, account_of as account_of_row};
ghost use Rattle.ps_nodes.specs.NodeRows.{row_seen};
ghost use Rattle.ps_access.specs.Tables.{book_of};

use crate::tables::Tables;
use ps_nodes::NodeRef;
use ps_types::{Affil, Jid, NodeKey};

/// Whether the address is an account's: a bare address with a local part.
pub fn is_account_address(who: &Jid) -> bool
    ensures account { result ≡ is_account who.now }
{
    !who.local.is_empty() && who.resource.is_empty()
}

/// Whether the service is the account of this bare address, so that its nodes are the address's own.
pub fn is_account_of(service: &Jid, who: &Jid) -> bool
    ensures own { result ≡ is_own_account service.now who.now }
{
    is_account_address(service) && service.same_bare(who)
}

/// What an address is at a node: the account of a personal node is its owner, any other is what the row of its bare address says
/// (XEP-0060 §4.1).
pub fn affiliation_of(tables: &Tables, node: &NodeKey, who: &Jid) -> Affil
    ensures affil { result ≡ affiliation (book_of tables.now) node.now who.now }
{
    if is_account_of(&node.service, who) {
        Affil::Owner
    } else {
        tables.affils.get(node, who)
    }
}

/// The account of a node: that of a personal node, and the creator of another.
pub(crate) fn account_of<'a>(row: &NodeRef<'a>) -> &'a Jid
    ensures account { result.now ≡ account_of_row (row_seen row.now) }
{
    if is_account_address(&row.key.service) {
        &row.key.service
    } else {
        row.creator
    }
}
