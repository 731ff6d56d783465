// The laws of an audit. Each function is its contract.
ghost use Rattle.ps_audit_laws.specs.Laws.{EachKnownIsAddress, EachLineIsOfOne, EachLineTellsAChange, EachReaderIsTold, EachVerdictIsTold, NoRowNamesTheOthers};

/// After any number of entries the verdicts are those of the last line up to there.
pub fn each_verdict_is_told()
    ensures { EachVerdictIsTold }
{}

/// A line stands where the verdicts differ from those before the entry, and only there.
pub fn each_line_tells_a_change()
    ensures { EachLineTellsAChange }
{}

/// Whether an address may read is what its line says, or what is said of the others where it has none.
pub fn each_reader_is_told()
    ensures { EachReaderIsTold }
{}

/// Each line is of a bare address.
pub fn each_known_is_address()
    ensures { EachKnownIsAddress }
{}

/// The lines are in order, and no address has two.
pub fn each_line_is_of_one()
    ensures { EachLineIsOfOne }
{}

/// What is said of the others is the verdict of each address that has neither an affiliation nor a subscription at the node, isn't in the roster of its
/// account, and isn't the account.
pub fn no_row_names_the_others()
    ensures { NoRowNamesTheOthers }
{}
