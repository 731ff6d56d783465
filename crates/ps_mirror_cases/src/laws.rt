// A worked case, computed. The function is its contract.
ghost use Rattle.ps_mirror_cases.specs.Case.{CaseHolds};

/// A node is made, bob subscribes, two items are published and the first is retracted. A mirror that took bob's three notices, the first ones again and again, holds the second item.
pub fn premises_can_hold()
    ensures { CaseHolds }
{}
