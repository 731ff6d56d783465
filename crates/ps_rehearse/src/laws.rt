// The law of a rehearsal. The function is its contract.
ghost use Rattle.ps_rehearse.specs.Laws.{EachRunHasTheNumbers};

/// What a rehearsal of so many stanzas of a seed answers, however its two streams interleave, are the numbers of its stanzas one after the other.
pub fn each_run_has_the_numbers()
    ensures { EachRunHasTheNumbers }
{}
