// The places of the nodes whose names features ask for (XEP-0163 §4.2).
ghost use Rattle.std.specs.Prelude.{IfOk, OnOk};
ghost use Rattle.ps_nodes.specs.Named.{is_named};
ghost use Rattle.ps_nodes.specs.Places.{ArePlaces};
ghost use Rattle.ps_events.specs.Wanted.{AreAdded, ArePut, IsNameOf, asks_for, is_asked_for};

use ps_base::Memory;
use ps_nodes::Nodes;
use ps_types::Text;
use std::alloc::Global;
use std::collections::BTreeSet;

// The name of the nodes that a feature asks for.
fn name_in(feature: &Text) -> Option<&str>
    ensures { IsNameOf feature.now result }
{
    feature.as_str().strip_suffix("+notify")
}

fn put_all(places: &mut BTreeSet<u64>, found: &[u64]) -> Result<(), Memory>
    ensures { OnOk result (AreAdded found.now places.old.keys places.new.keys) }
{
    for place in found {
        places.insert(*place)?;
    }
    Ok(())
}

fn add_named(
    alloc: Global,
    places: &mut BTreeSet<u64>,
    nodes: &Nodes,
    name: &str,
) -> Result<(), Memory>
    ensures { OnOk result (ArePut (is_named name.now) nodes.now.rows places.old.keys places.new.keys) }
{
    let name = Text::of(alloc, name)?;
    let found = nodes.places_named(alloc, &name)?;
    put_all(places, found.as_slice())?;
    Ok(())
}

fn add_asked(
    alloc: Global,
    places: &mut BTreeSet<u64>,
    nodes: &Nodes,
    feature: &Text,
) -> Result<(), Memory>
    ensures { OnOk result (ArePut (asks_for feature.now) nodes.now.rows places.old.keys places.new.keys) }
{
    if let Some(name) = name_in(feature) {
        add_named(alloc, places, nodes, name)?;
    }
    Ok(())
}

/// The places of the nodes that features ask for by name.
pub fn places_asked(
    alloc: Global,
    nodes: &Nodes,
    features: &[Text],
) -> Result<BTreeSet<u64>, Memory>
    ensures { IfOk result (λ places. ArePlaces (is_asked_for features.now) nodes.now.rows places.keys) }
{
    let mut places = BTreeSet::new(alloc);
    for feature in features {
        add_asked(alloc, &mut places, nodes, feature)?;
    }
    Ok(places)
}
