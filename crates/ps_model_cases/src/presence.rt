// Resources that go and come. Each function is its contract.
ghost use Rattle.ps_model_cases.specs.Case.{Holds};
ghost use Rattle.ps_model_cases.specs.PresenceCases as cases;

/// A resource that became unavailable is told nothing where delivery is based on presence.
pub fn absent_is_not_told()
    ensures { Holds cases.absent cases.absent_told }
{}

/// A resource whose capabilities another's answer verified isn't asked, and gets the last item as it becomes present.
pub fn verified_is_not_asked()
    ensures { Holds cases.known cases.known_told }
{}
