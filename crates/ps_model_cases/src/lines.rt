// Lines as bytes. Each function is its contract.
ghost use Rattle.ps_model_cases.specs.LineCases.{FirstLines, Refusals};

/// The first request of a service and its answer, byte for byte, and the entry that it makes; then the same again, which conflicts and makes none.
pub fn first_lines()
    ensures { FirstLines }
{}

/// Lines that are no JSON, no tree, no stanza or no stanza of their stream, and stanzas that ask for what there isn't, each with its answer, byte for byte.
pub fn bad_lines()
    ensures { Refusals }
{}
