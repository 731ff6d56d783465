// Personal nodes. Each function is its contract.
ghost use Rattle.std.specs.Prelude.{[]};
ghost use Rattle.ps_model_cases.specs.Case.{Holds};
ghost use Rattle.ps_model_cases.specs.HomeCases as cases;

/// A publish makes the node, and who gets the account's presence reads it. A resource that comes to want it is sent the last item, with the moment of its
/// publishing.
pub fn last_item()
    ensures { Holds cases.last cases.last_told }
{}

/// A resource that wants a personal node gets its items where the roster has it at from, and not beside a subscription.
pub fn wanted_items()
    ensures { Holds cases.wanting cases.wanting_told }
{}

/// Who is in an allowed group of the roster reads. Another doesn't make a node of the account.
pub fn roster_groups()
    ensures { Holds cases.groups [] }
{}
