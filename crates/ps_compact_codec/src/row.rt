// A row of any kind.
use ps_types::{
    AffilRow, CountRow, ItemRow, Jid, LinkRow, NodeRow, RosterRow, SubRow, Text, VerRow,
};

/// A row that a compacted store begins with.
#[derive(Clone, Drop)]
pub enum StoredRow {
    Node(NodeRow),
    Affiliation(AffilRow),
    Subscription(SubRow),
    Item(ItemRow),
    Link(LinkRow),
    Contact(RosterRow),
    Ver(VerRow),
    Made(CountRow),
    /// How many notices were handed to a bare address.
    Counter { who: Jid, handed: u64 },
    /// A notice that isn't handed, with its line, which is the printed stanza.
    Notice { to: Jid, line: Text },
}
