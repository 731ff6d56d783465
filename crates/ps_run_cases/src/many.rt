// Many who have subscribed. The function is its contract.
ghost use Rattle.ps_model_cases.specs.Case.{Holds};
ghost use Rattle.ps_run_cases.specs.ManyCases as cases;

/// Forty who have subscribed get one notice each; once the node is closed, its twenty members do.
pub fn forty_are_told()
    ensures all { Holds cases.all cases.all_told }
    ensures half { Holds cases.half cases.half_told }
{}
