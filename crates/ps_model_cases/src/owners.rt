// What an owner sees and sets, and the options of a subscription. Each function is its contract.
ghost use Rattle.std.specs.Prelude.{[]};
ghost use Rattle.ps_model_cases.specs.Case.{Holds};
ghost use Rattle.ps_model_cases.specs.OptionCases as options;
ghost use Rattle.ps_model_cases.specs.OwnerCases as cases;

/// The affiliations of a node are listed in the order of their making, and each address sees its own. At a personal node the account comes first and stays
/// owner.
pub fn affiliations_are_listed()
    ensures at_service { Holds cases.affiliations [] }
    ensures at_account { Holds cases.personal [] }
{}

/// An owner sets subscriptions: each change of a state is told to its address, and who is newly subscribed gets the last item.
pub fn subscriptions_are_set()
    ensures { Holds cases.subscriptions cases.subscriptions_told }
{}

/// A cancelled form changes nothing, whatever its fields say, and is still for owners alone.
pub fn cancelled_form()
    ensures { Holds cases.cancelled [] }
{}

/// The options of a subscription are shown and set; a field that isn't given stays. Options that can't be read are invalid.
pub fn options_are_kept()
    ensures kept { Holds options.options [] }
    ensures invalid { Holds options.invalid_options [] }
{}
