// Two runs on one store. Each function is its contract.
ghost use Rattle.std.specs.Prelude.{◌≡◌, [], ◌∷◌, drop};
ghost use Rattle.ps_model_cases.specs.Case.{Holds};
ghost use Rattle.ps_run_cases.specs.RunCases as cases;

/// A resource that comes to want a node in a second run is given the item of the first, with the moment of its publishing where there was a clock.
pub fn last_item_of_an_earlier_run()
    ensures unstamped { Holds cases.unstamped cases.unstamped_told }
    ensures stamped { Holds cases.stamped cases.stamped_told }
{}

/// Where a sink fails in the second of three notices, the first alone is recorded, and the next run sends the second with the same number and line, and then
/// the third.
pub fn cut_off_notice()
    ensures first_sent { cases.sent_in cases.first_world ≡ cases.first_notice ∷ cases.second_notice ∷ [] }
    ensures first_recorded { drop 9 cases.first_world.entries ≡ cases.handed_once }
    ensures other_sent { cases.sent_in cases.other_world ≡ cases.second_notice ∷ cases.third_notice ∷ [] }
    ensures other_recorded { drop 12 cases.other_world.entries ≡ cases.handed_twice }
{}
