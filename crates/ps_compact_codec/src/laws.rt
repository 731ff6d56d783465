// The law of rows that are read. The function is its contract.
ghost use Rattle.ps_compact_codec.specs.Laws.{AcceptedIsHeld, HeldIsAccepted};

/// No State accepts a row with a number of 2^64 or more: the row that is accepted is the one that is read, and a tree is accepted just where that row is.
pub fn accepted_rows_are_held()
    ensures held { AcceptedIsHeld }
    ensures accepted { HeldIsAccepted }
{}
