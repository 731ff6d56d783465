// Who reads, who is asked, and what is told of it. Each function is its contract.
ghost use Rattle.ps_model_cases.specs.AccessCases as cases;
ghost use Rattle.ps_model_cases.specs.Case.{Holds};

/// Members of a whitelist read, others are told that the node is closed, who may only publish and outcasts are forbidden. A notice is decided at its
/// entry: who is a member no more keeps what was decided before, and gets nothing after.
pub fn whitelist_in_order()
    ensures { Holds cases.whitelist cases.whitelist_told }
{}

/// An owner is asked for an approval. A pending subscriber reads nothing and is told nothing, then he is told of the approval and gets the items from then on.
pub fn approval_is_asked()
    ensures { Holds cases.approved cases.approved_told }
{}

/// Who is refused is told so and reads nothing. He may ask again, and be let in.
pub fn refusal_is_told()
    ensures { Holds cases.refused cases.refused_told }
{}

/// At an open node everyone reads, and where subscribers publish, who has subscribed does.
pub fn subscribers_publish()
    ensures { Holds cases.subscribers cases.subscribers_told }
{}
