//! What holds of every Book that a lawful list of entries leaves. The rows of a compacted store may stand at the front of the list.
//!
//! `specs/Laws.antt` has the laws. `EachBookIsSound`: in each of the nine lists of rows every key is its own (`Keys.HasKeys`), a link stands between nodes that stand, and a node is
//! configured with the collection that its link names (`Linked`), and affiliations, subscriptions and counts of made ids are of nodes that stand (`Rows`).
//! `EachBookHoldsItems`: items lie at leaves, and no node holds more of them than it may. `EachRowIsWellFormed`: the rows that a compacted store is written
//! with have bare addresses, and names and ids of a length that a request may give them, as acceptance asks of such a row. `EachBookNamesAddresses`: whoever has a subscription
//! or an affiliation, or is present, is an address (RFC 7622). `EachItemIsEarly`: where every change came at a moment that a stamp can tell, each item did (XEP-0082).
//!
//! Each function here has an empty body: its contract is the law. `proofs/` goes kind by kind through the requests (the files `..Kinds`), then through the rows of a
//! compacted store, the entries and the lists.
#![tactic(auto)]

mod laws;

pub use laws::{
    each_book_holds_items, each_book_is_sound, each_book_names_addresses, each_item_is_early,
    each_row_is_well_formed,
};
