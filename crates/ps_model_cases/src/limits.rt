// How many there may be. The function is its contract.
ghost use Rattle.ps_model_cases.specs.LimitCases as cases;

/// A node has at most 65,536 subscriptions, a bare address makes at most 10,000 nodes, and a roster has at most 4,096 contacts: where there are so many, whoever
/// they are, one more is denied, and where there is one fewer, it isn't.
pub fn greatest_numbers()
    ensures subscriptions { cases.SubLimit }
    ensures nodes { cases.NodeLimit }
    ensures contacts { cases.ContactLimit }
{}
