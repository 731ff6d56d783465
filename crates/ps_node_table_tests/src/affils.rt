// Affiliations, by bare address.
use crate::words::{jid, node};
use ps_affil::Affils;
use ps_types::{Affil, AffilRow};
use std::alloc::Global;
use std::test::Fail;

fn row(alloc: Global, name: &str, who: &str, affil: Affil) -> Result<AffilRow, Fail> {
    let node = node(alloc, name)?;
    let who = jid(alloc, who)?;
    Ok(AffilRow { node, who, affil })
}

fn set(
    alloc: Global,
    affils: &mut Affils,
    name: &str,
    who: &str,
    affil: Affil,
) -> Result<(), Fail> {
    affils.reserve(1)?;
    let row = row(alloc, name, who, affil)?;
    affils.set(row);
    Ok(())
}

// ann@a.example owns w, where bob is a member, cid publishes only and dot is an outcast.
fn whitelist(alloc: Global) -> Result<Affils, Fail> {
    let mut affils = Affils::new(alloc)?;
    set(alloc, &mut affils, "w", "ann@a.example", Affil::Owner)?;
    set(alloc, &mut affils, "w", "bob@b.example", Affil::Publisher)?;
    set(alloc, &mut affils, "w", "cid@a.example", Affil::PublishOnly)?;
    set(alloc, &mut affils, "w", "dot@a.example", Affil::Outcast)?;
    set(alloc, &mut affils, "w", "bob@b.example", Affil::Member)?;
    Ok(affils)
}

#[test]
fn rows_are_listed_copied_and_dropped(rt: HostRuntime) -> Result<(), Fail> {
    let alloc = rt.alloc();
    let mut affils = whitelist(alloc)?;
    affils.reserve(1)?;
    let other = row(alloc, "news", "bob@b.example", Affil::Owner)?;
    affils.add(other);
    let w = node(alloc, "w")?;
    let bob = jid(alloc, "bob@b.example/1")?;
    let of_node = affils.of_node(alloc, &w)?;
    assert_eq!(rt; of_node.len(), 4);
    let of_bob = affils.of_address(alloc, &bob)?;
    assert_eq!(rt; of_bob.len(), 2);
    assert!(rt; affils.row_of(&w, &bob).is_some());
    assert!(rt; affils.row(4).is_some());
    let copy = affils.copy()?;
    affils.drop_node(&w);
    assert_eq!(rt; affils.len(), 1);
    assert_eq!(rt; copy.len(), 5);
    Ok(())
}
