// Discovery. Each function is its contract.
ghost use Rattle.std.specs.Prelude.{[]};
ghost use Rattle.ps_model_cases.specs.Case.{Holds};
ghost use Rattle.ps_model_cases.specs.DiscoveryCases as cases;

/// The service and an account say what they are and what they can do.
pub fn entities_say_what_they_are()
    ensures { Holds cases.entities [] }
{}

/// The service lists its nodes, a collection its nodes, and a leaf its items to who may read it. An account lists those nodes alone that the sender may read.
pub fn nodes_and_items_are_listed()
    ensures at_service { Holds cases.lists [] }
    ensures at_account { Holds cases.at_account [] }
{}
