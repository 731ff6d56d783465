// The rows in their places.
ghost use Rattle.std.specs.Prelude.{◌≡◌, true, [], IfSome, slice_get, option_copied};
ghost use Rattle.ps_chains.specs.Marks.{mark_at};
ghost use Rattle.ps_rows.specs.Standing.{passes_at, seen, standing};
ghost use Rattle.ps_types.specs.Nodes.{is_node, made_by, node_at, stands};
ghost use Rattle.ps_nodes.specs.Gaps.{empties};
ghost use Rattle.ps_nodes.specs.NodeRows.{IsAlone, is_there, row_seen};
ghost use Rattle.ps_nodes.specs.Kept.{AreFull, AreOnce};

use crate::asks::{MadeBy, NodeOf};
use crate::gaps::{cut_of, rank_of};
use crate::nodes::NodeRef;
use ps_rows::{Index, Slots, count_node, seek};
use ps_types::{Jid, NodeKey, NodeRow};

/// Where the row of a node stands.
pub fn seek_node(slots: &Slots<NodeRow>, node: &NodeKey) -> Option<usize>
    ensures before { seen (is_node node.now) result slots.now.rows ≡ [] }
    ensures here { IfSome result (λ place. passes_at (is_node node.now) (mark_at slots.now.rows place) ≡ true) }
{
    let ask = NodeOf { node };
    seek(slots, Index::Key, &ask)
}

/// The row of a node.
pub fn row_in<'a>(slots: &'a Slots<NodeRow>, node: &NodeKey) -> Option<&'a NodeRow>
    ensures { option_copied result ≡ node_at node.now (standing slots.now.rows) }
{
    match seek_node(slots, node) {
        Some(place) => slots.get(place),
        None => None,
    }
}

/// Whether the node stands.
pub fn holds(slots: &Slots<NodeRow>, node: &NodeKey) -> bool
    ensures { result ≡ stands node.now (standing slots.now.rows) }
{
    row_in(slots, node).is_some()
}

/// The row by its parts.
pub fn parts(row: &NodeRow) -> NodeRef<'_>
    ensures { row_seen result ≡ row.now }
{
    NodeRef {
        key: &row.key,
        creator: &row.creator,
        config: &row.config,
    }
}

/// The row that stands after as many others as given.
pub fn nth<'a>(slots: &'a Slots<NodeRow>, gaps: &[usize], at: usize) -> Option<&'a NodeRow>
    requires gaps { gaps.now ≡ empties 0 slots.now.rows }
    ensures { option_copied result ≡ slice_get (standing slots.now.rows) at }
{
    let _places = slots.len();
    if at >= slots.standing() {
        return None;
    }
    slots.get(at + cut_of(gaps, at + 1, true))
}

/// How many rows stand before the row of a node, which no other row is of.
pub fn place_in(slots: &Slots<NodeRow>, gaps: &[usize], node: &NodeKey) -> Option<usize>
    requires gaps { gaps.now ≡ empties 0 slots.now.rows }
    requires once { AreOnce (standing slots.now.rows) }
    ensures here { IfSome result (λ at. is_there node.now (slice_get (standing slots.now.rows) at) ≡ true) }
    ensures alone { IsAlone node.now (standing slots.now.rows) result }
{
    match seek_node(slots, node) {
        Some(place) => Some(rank_of(gaps, place)),
        None => None,
    }
}

/// How many nodes a bare address made. Where another address has its digest, those of both are gone through.
pub fn made_in(slots: &Slots<NodeRow>, who: &Jid) -> usize
    ensures { result ≡ made_by who.now (standing slots.now.rows) }
{
    let ask = MadeBy { who };
    count_node(slots, &ask)
}

/// The same rows, with no empty place.
pub fn filled(slots: Slots<NodeRow>) -> Slots<NodeRow>
    ensures rows { standing result.rows ≡ standing slots.rows }
    ensures full { AreFull result.rows }
{
    if slots.standing() == slots.len() {
        return slots;
    }
    let mut packed = slots;
    packed.pack();
    packed
}
