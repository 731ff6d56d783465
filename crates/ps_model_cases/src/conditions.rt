// Requests that are denied for how they are written, whom they are to, or want of room. Each function is its contract.
ghost use Rattle.std.specs.Prelude.{[]};
ghost use Rattle.ps_model_cases.specs.Case.{Holds};
ghost use Rattle.ps_model_cases.specs.ConditionCases as cases;
ghost use Rattle.ps_model_cases.specs.FullCases as full;

/// Two items where one is taken, none where one is needed, and words and numbers that aren't any, are bad requests.
pub fn bad_requests()
    ensures { Holds cases.bad_requests [] }
{}

/// An owner's answer to the question for an approval is denied by a message.
pub fn denied_approvals()
    ensures { Holds cases.approvals cases.approvals_told }
{}

/// A stanza to a text that is no address, to one that isn't served, or about a contact that is no address; and a namespace or a kind that isn't served.
pub fn bad_addresses()
    ensures { Holds cases.addresses [] }
{}

/// A collection takes no request for items, and the denial names the feature that it lacks.
pub fn unsupported_by_collections()
    ensures { Holds cases.unsupported_requests [] }
{}

/// Where the journal has no room, what would make an entry makes none and is denied by a stanza of its kind; an answer about capabilities gets nothing. What
/// makes no entry is answered as ever.
pub fn no_room()
    ensures requests { Holds full.requests [] }
    ensures others { Holds full.others full.others_told }
{}
