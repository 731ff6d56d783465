// The laws of a rehearsal. Each function is its contract.
ghost use Rattle.ps_rehearse_laws.specs.Laws.{EachLogGrowsByItsHosts, EachRehearsalHasTheNumbers, EachWordIsToItsHost};

/// However the two streams of a rehearsal interleave, the numbers of stanzas, of changes, of results, of errors and of notices are those of its stanzas one after the other.
pub fn each_rehearsal_has_the_numbers()
    ensures { EachRehearsalHasTheNumbers }
{}

/// What the readers and writers of some hosts do adds entries of these hosts alone, and what is said for a host is to its own addresses: of a run of a rehearsal both are asked above.
pub fn each_log_is_of_its_hosts()
    ensures entries { EachLogGrowsByItsHosts }
    ensures words { EachWordIsToItsHost }
{}
