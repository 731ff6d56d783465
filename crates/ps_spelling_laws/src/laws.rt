// The laws of what is read. Each function is its contract.
ghost use Rattle.ps_spelling_laws.specs.Laws.{EachLineIsExact, EachStoreHasOne};

/// A line has a tree exactly where its text reads as that tree.
pub fn each_line_is_exact()
    ensures { EachLineIsExact }
{}

/// The bytes of each store have a list of entries, each accepted at its place, or a place where they are damaged.
pub fn each_store_has_one()
    ensures { EachStoreHasOne }
{}
