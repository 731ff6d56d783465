// Collections. Each function is its contract.
ghost use Rattle.ps_model_cases.specs.Case.{Holds};
ghost use Rattle.ps_model_cases.specs.CollectionCases as cases;

/// A subscription to a collection reaches as far as its depth, and names the collection in a header. The leaf's own access model decides too.
pub fn deep_notice()
    ensures { Holds cases.deep cases.deep_told }
{}

/// Of subscriptions to two collections the nearest counts.
pub fn near_notice()
    ensures { Holds cases.near cases.near_told }
{}

/// A node goes into a collection as it is made and never moves, and a collection that holds nodes stays.
pub fn collections_stay()
    ensures { Holds cases.kept_together cases.deep_told }
{}

/// A new node of a collection is told to who subscribed to nodes, and its items aren't.
pub fn new_node_is_told()
    ensures { Holds cases.new_node cases.new_node_told }
{}
