// How many ids were made.
use crate::words::{jid, node};
use ps_item_ids::Counts;
use ps_types::CountRow;
use std::alloc::Global;
use std::process::Abort;
use std::test::Fail;

fn row(alloc: Global, name: &str, made: u64) -> Result<CountRow, Fail> {
    let node = node(alloc, name)?;
    let who = jid(alloc, "ann@a.example")?;
    Ok(CountRow { node, who, made })
}

#[test]
fn ids_are_counted_by_bare_address(rt: HostRuntime) -> Result<(), Fail> {
    let alloc = rt.alloc();
    let mut counts = Counts::new(alloc)?;
    let news = node(alloc, "news")?;
    let ann = jid(alloc, "ann@a.example/1")?;
    assert_eq!(rt; counts.get(&news, &ann), 0);
    for made in [1, 2] {
        counts.reserve(1)?;
        let row = row(alloc, "news", made)?;
        counts.set(row);
    }
    counts.reserve(1)?;
    let other = row(alloc, "other", 7)?;
    counts.add(other);
    assert_eq!(rt; counts.get(&news, &ann), 2);
    assert!(rt; counts.row_of(&news, &ann).is_some());
    assert_eq!(rt; counts.len(), 2);
    let copy = counts.copy()?;
    counts.drop_node(&news);
    assert_eq!(rt; counts.get(&news, &ann), 0);
    assert!(rt; copy.row(1).is_some());
    Ok(())
}
