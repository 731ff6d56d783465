// What acceptance looks at, and what it gives.
ghost use Rattle.ps_compact_import.specs.States.{HasOwnKey, IsByRows};

/// A row is accepted by the Book and by the numbers of notices alone, whatever the count of entries and the lines; and a node that is accepted has a key of its own.
pub fn accepted_by_rows()
    ensures rows { IsByRows }
    ensures key { HasOwnKey }
{}
