// Entries as a list that only proofs read.
ghost use Rattle.std.specs.Prelude.{◌≡◌, ◌∷◌, ◌++◌, [], List};
ghost use Rattle.std.specs.Borrow.{ftrue};
ghost use Rattle.std.specs.Coded.{coded_list};
ghost use Rattle.ps_types.specs.contracts.entry.Entry as entry;
ghost use Rattle.ps_types.specs.declared.entry.Entry.{Entry};

use ps_types::Entry;
use std::marker::Model;

/// A list of entries which takes no memory and of which a program reads nothing. A contract reads it as `items`.
#[derive(Drop)]
pub(crate) struct Roll {
    pub ghost items: { List Entry } by { coded_list entry.the_row.coded },
}

impl Model for Roll {
    ghost also_owns = { λ _. ftrue };
}

impl Roll {
    /// The empty list.
    pub(crate) fn new() -> Roll
        ensures { result.items ≡ [] }
    {
        Roll {}
    }

    /// The list with one more at its end.
    pub(crate) fn longer(_before: &Roll, _one: &Entry) -> Roll
        ensures { result.items ≡ _before.now.items ++ _one.now ∷ [] }
    {
        Roll {}
    }
}
