// Nodes and their items. Each function is its contract.
ghost use Rattle.std.specs.Prelude.{[]};
ghost use Rattle.ps_model_cases.specs.BookmarkCases.{forty_rooms};
ghost use Rattle.ps_model_cases.specs.Case.{Holds};
ghost use Rattle.ps_model_cases.specs.NodeCases as cases;

/// Ids of items without one are made in order, and past the greatest number of items the oldest goes.
pub fn item_ids()
    ensures { Holds cases.ids [] }
{}

/// What an item must have, by the node's configuration: a payload or none, one alone, and of 65,536 bytes at most. A collection takes none, and a missing
/// node is found first.
pub fn item_denials()
    ensures { Holds cases.items [] }
{}

/// The last owner can't go. One who makes another first may go, and owns no more.
pub fn last_owner()
    ensures { Holds cases.owners [] }
{}

/// One can't end a subscription that isn't there, nor name it by an id, nor speak for others.
pub fn other_subscribers()
    ensures { Holds cases.others [] }
{}

/// A node that was made without a form has the default configuration: its owner is shown the seventeen fields, and another is forbidden.
pub fn configuration_shown()
    ensures { Holds cases.configuration [] }
{}

/// Numbers out of range are denied, and node names that are missing or too long.
pub fn numbers_and_names()
    ensures { Holds cases.numbers [] }
{}

/// What a node is, and which nodes there are.
pub fn nodes_are_found()
    ensures { Holds cases.discovery [] }
{}

/// The options of a publish make the node and are met by the node that they made: forty rooms are kept, and all are listed. Other options are denied, and
/// unknown ones.
pub fn bookmarks_are_kept()
    ensures { Holds forty_rooms [] }
{}
