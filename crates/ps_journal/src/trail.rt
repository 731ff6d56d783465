// Entries with their offsets, as a list that only proofs read.
ghost use Rattle.std.specs.Prelude.{◌≡◌, ◌∷◌, ◌++◌, [], List};
ghost use Rattle.std.specs.Borrow.{ftrue};
ghost use Rattle.std.specs.Coded.{coded_list};
ghost use Rattle.ps_journal.specs.contracts.judging.Placed as placed;
ghost use Rattle.ps_journal.specs.declared.judging.Placed.{Placed};

use crate::judging::Placed;
use std::marker::Model;

/// A list of entries with their offsets, which takes no memory and of which a program reads nothing. A contract reads it as `items`.
#[derive(Drop)]
pub struct Trail {
    pub ghost items: { List Placed } by { coded_list placed.the_row.coded },
}

impl Model for Trail {
    ghost also_owns = { λ _. ftrue };
}

impl Trail {
    /// The empty list.
    pub fn new() -> Trail
        ensures { result.items ≡ [] }
    {
        Trail {}
    }

    /// The list with one more at its end.
    pub fn with(_before: &Trail, _one: &Placed) -> Trail
        ensures { result.items ≡ _before.now.items ++ _one.now ∷ [] }
    {
        Trail {}
    }
}
