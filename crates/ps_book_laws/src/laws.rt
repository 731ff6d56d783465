// The laws of the Books. Each function is its contract.
ghost use Rattle.ps_book_laws.specs.Laws.{EachBookHoldsItems, EachBookIsSound, EachBookNamesAddresses, EachItemIsEarly, EachRowIsWellFormed};

/// In the Book of each lawful list keys are their own, links and configurations agree, and rows are of nodes that stand.
pub fn each_book_is_sound()
    ensures { EachBookIsSound }
{}

/// In the Book of each lawful list items lie at leaves, and no node holds more than it may.
pub fn each_book_holds_items()
    ensures { EachBookHoldsItems }
{}

/// The rows that a compacted store is written with have the form that acceptance asks of them.
pub fn each_row_is_well_formed()
    ensures { EachRowIsWellFormed }
{}

/// Whoever has a subscription or an affiliation in the Book of a lawful list, or is present there, is an address.
pub fn each_book_names_addresses()
    ensures { EachBookNamesAddresses }
{}

/// Where every change came at a moment that a stamp can tell, each item of the Book did.
pub fn each_item_is_early()
    ensures { EachItemIsEarly }
{}
