// Who may do what.
ghost use Rattle.std.specs.Prelude.{◌≡◌, true};
ghost use Rattle.ps_types.specs.Nodes.{stands};
ghost use Rattle.ps_model.specs.Access.{read, subscribe, publish, own, own_by, granted_if, subscribed, read_by_model, subscribe_by_model, publish_by_model};
ghost use Rattle.ps_nodes.specs.NodeRows.{row_seen};
ghost use Rattle.ps_access.specs.Tables.{book_of};

use crate::addresses::{account_of, affiliation_of};
use crate::contacts::{gets_presence_of, is_in_groups};
use crate::tables::Tables;
use ps_nodes::NodeRef;
use ps_types::{Access, Affil, Condition, Jid, NodeKey, PublishModel, Rule, Verdict};

fn grant_if(holds: bool, rule: Rule, why: Condition) -> Verdict
    ensures { result ≡ granted_if holds rule why }
{
    if holds {
        Verdict::Granted(rule)
    } else {
        Verdict::Denied(why)
    }
}

// What an access model says of an address without an affiliation.
fn model_read(model: Access, tables: &Tables, row: &NodeRef<'_>, who: &Jid) -> Verdict
    ensures { result ≡ read_by_model model (book_of tables.now) (row_seen row.now) who.now }
{
    match model {
        Access::Everyone => Verdict::Granted(Rule::ByOpen),
        Access::Presence => {
            let there = gets_presence_of(&tables.roster, account_of(row), who);
            grant_if(there, Rule::ByPresence, Condition::C18)
        }
        Access::Roster => {
            let allowed = row.config.roster_groups_allowed.as_slice();
            let there = is_in_groups(&tables.roster, allowed, account_of(row), who);
            grant_if(there, Rule::ByGroup, Condition::C19)
        }
        Access::Authorize => {
            let there = tables.subs.is_subscribed(row.key, who);
            grant_if(there, Rule::BySubscription, Condition::C20)
        }
        Access::Whitelist => Verdict::Denied(Condition::C17),
    }
}

fn model_subscribe(model: Access, tables: &Tables, row: &NodeRef<'_>, who: &Jid) -> Verdict
    ensures { result ≡ subscribe_by_model model (book_of tables.now) (row_seen row.now) who.now }
{
    match model {
        Access::Authorize => Verdict::Pending,
        _ => model_read(model, tables, row, who),
    }
}

fn model_publish(model: PublishModel, tables: &Tables, node: &NodeKey, who: &Jid) -> Verdict
    ensures { result ≡ publish_by_model model (subscribed (book_of tables.now) node.now who.now) }
{
    match model {
        PublishModel::Anyone => Verdict::Granted(Rule::ByPublishModel),
        PublishModel::Subscribers => {
            let there = tables.subs.is_subscribed(node, who);
            grant_if(there, Rule::ByPublishModel, Condition::C11)
        }
        PublishModel::Publishers => Verdict::Denied(Condition::C11),
    }
}

/// Whether an address may read a node (XEP-0060 §4.5).
pub fn verdict_read(tables: &Tables, node: &NodeKey, who: &Jid) -> Verdict
    requires stands { stands node.now tables.now.nodes.rows ≡ true }
    ensures verdict { result ≡ read (book_of tables.now) node.now who.now }
{
    let Some(row) = tables.nodes.get(node) else {
        return Verdict::Denied(Condition::C12);
    };
    match affiliation_of(tables, node, who) {
        Affil::Owner | Affil::Publisher | Affil::Member => Verdict::Granted(Rule::ByAffiliation),
        Affil::PublishOnly | Affil::Outcast => Verdict::Denied(Condition::C11),
        Affil::Nothing => model_read(row.config.access_model, tables, &row, who),
    }
}

/// Whether an address may subscribe to a node: as it may read, but that under the model authorize the owners are asked first.
pub fn verdict_subscribe(tables: &Tables, node: &NodeKey, who: &Jid) -> Verdict
    requires stands { stands node.now tables.now.nodes.rows ≡ true }
    ensures verdict { result ≡ subscribe (book_of tables.now) node.now who.now }
{
    let Some(row) = tables.nodes.get(node) else {
        return Verdict::Denied(Condition::C12);
    };
    match affiliation_of(tables, node, who) {
        Affil::Owner | Affil::Publisher | Affil::Member => Verdict::Granted(Rule::ByAffiliation),
        Affil::PublishOnly | Affil::Outcast => Verdict::Denied(Condition::C11),
        Affil::Nothing => model_subscribe(row.config.access_model, tables, &row, who),
    }
}

/// Whether an address may publish at a node.
pub fn verdict_publish(tables: &Tables, node: &NodeKey, who: &Jid) -> Verdict
    requires stands { stands node.now tables.now.nodes.rows ≡ true }
    ensures verdict { result ≡ publish (book_of tables.now) node.now who.now }
{
    let Some(row) = tables.nodes.get(node) else {
        return Verdict::Denied(Condition::C12);
    };
    match affiliation_of(tables, node, who) {
        Affil::Owner | Affil::Publisher | Affil::PublishOnly => {
            Verdict::Granted(Rule::ByAffiliation)
        }
        Affil::Outcast => Verdict::Denied(Condition::C11),
        Affil::Member | Affil::Nothing => {
            model_publish(row.config.publish_model, tables, node, who)
        }
    }
}

/// Whether one of that affiliation owns a node.
pub(crate) fn own_verdict(affil: Affil) -> Verdict
    ensures { result ≡ own_by affil }
{
    match affil {
        Affil::Owner => Verdict::Granted(Rule::ByAffiliation),
        _ => Verdict::Denied(Condition::C11),
    }
}

/// Whether an address owns a node.
pub fn verdict_own(tables: &Tables, node: &NodeKey, who: &Jid) -> Verdict
    requires stands { stands node.now tables.now.nodes.rows ≡ true }
    ensures verdict { result ≡ own (book_of tables.now) node.now who.now }
{
    own_verdict(affiliation_of(tables, node, who))
}
