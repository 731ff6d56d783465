// What is told of a node. Each function is its contract.
ghost use Rattle.std.specs.Prelude.{[], ◌∷◌};
ghost use Rattle.ps_model_cases.specs.Case.{Holds};
ghost use Rattle.ps_model_cases.specs.NoticeCases as cases;

/// A subscriber is handed the published item, byte for byte. The node is made once, another can't publish there, and everyone reads.
pub fn item_is_handed()
    ensures { Holds cases.published_item (cases.item_notice ∷ []) }
{}

/// Each address that has subscribed gets a notice of its own, in the order of their octets; those of one bare address are numbered one after the other.
pub fn each_address_once()
    ensures { Holds cases.addresses cases.addresses_told }
{}

/// Where a node doesn't tell of retractions, one is told if its request asks for it.
pub fn retraction_on_request()
    ensures { Holds cases.retracted cases.retracted_told }
{}

/// Each kind of event of a node is told, as a headline or as a normal message.
pub fn each_kind_is_told()
    ensures { Holds cases.each_kind cases.each_kind_told }
{}

/// Delivery that is based on presence lasts until the end of the host's stream, or the next boot.
pub fn told_while_present()
    ensures { Holds cases.while_present cases.while_present_told }
{}
