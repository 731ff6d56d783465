// The four verdicts at once.
ghost use Rattle.std.specs.Prelude.{◌≡◌};
ghost use Rattle.ps_access.specs.Tables.{book_of};
ghost use Rattle.ps_audit_laws.specs.Verdicts.{four_at};

use ps_access::{Tables, verdict_own, verdict_publish, verdict_read, verdict_subscribe};
use ps_audit_laws::Four;
use ps_types::{Jid, NodeKey};

/// The verdicts for an address at a node, or None where the node doesn't stand.
pub(crate) fn four_verdicts(tables: &Tables, node: &NodeKey, who: &Jid) -> Option<Four>
    ensures { result ≡ four_at (book_of tables.now) node.now who.now }
{
    if !tables.nodes.has(node) {
        return None;
    }
    Some(Four {
        read: verdict_read(tables, node, who),
        subscribe: verdict_subscribe(tables, node, who),
        publish: verdict_publish(tables, node, who),
        own: verdict_own(tables, node, who),
    })
}
