// Items in the order of their publishing.
ghost use Rattle.std.specs.Prelude.{◌≤◌};

use crate::words::{jid, node};
use ps_items::Items;
use ps_types::{ItemRow, NodeKey, Text};
use std::alloc::Global;
use std::process::Abort;
use std::test::Fail;

fn item(alloc: Global, name: &str, id: &str) -> Result<ItemRow, Fail> {
    let node = node(alloc, name)?;
    let id = Text::of(alloc, id)?;
    let publisher = jid(alloc, "ann@a.example")?;
    Ok(ItemRow {
        node,
        id,
        publisher,
        payload: None,
        moment: None,
    })
}

fn publish(alloc: Global, items: &mut Items, name: &str, ids: &[&str], max: u64) -> Result<(), Fail>
    requires one { 1 ≤ max }
{
    for id in ids {
        items.reserve(1)?;
        let row = item(alloc, name, id)?;
        items.put(row, max);
    }
    Ok(())
}

fn is_at(rows: &[ItemRow], at: usize, id: &str) -> bool {
    match rows.get(at) {
        Some(row) => row.id.is(id),
        None => false,
    }
}

fn lists(
    rt: &impl Abort,
    alloc: Global,
    items: &Items,
    name: &str,
    want: &[&str],
) -> Result<(), Fail> {
    let node = node(alloc, name)?;
    let rows = items.list(alloc, &node)?;
    assert_eq!(rt; rows.len(), want.len());
    for (at, id) in want.iter().enumerate() {
        assert!(rt; is_at(&rows, at, id), "{id}");
    }
    Ok(())
}

fn find_and_remove(
    rt: &impl Abort,
    alloc: Global,
    items: &mut Items,
    news: &NodeKey,
) -> Result<(), Fail> {
    let id = Text::of(alloc, "i1")?;
    assert!(rt; items.has(news, &id));
    assert!(rt; items.get(news, &id).is_some());
    assert!(rt; items.last(news).is_some());
    assert_eq!(rt; items.count(news), 3);
    assert!(rt; items.remove(news, &id));
    assert!(rt; !items.remove(news, &id));
    Ok(())
}

#[test]
fn items_are_found_removed_kept_and_copied(rt: HostRuntime) -> Result<(), Fail> {
    let alloc = rt.alloc();
    let mut items = Items::new(alloc)?;
    publish(alloc, &mut items, "news", &["i1", "i2", "i3"], 10)?;
    let copy = items.copy()?;
    let news = node(alloc, "news")?;
    find_and_remove(&rt, alloc, &mut items, &news)?;
    lists(&rt, alloc, &items, "news", &["i2", "i3"])?;
    items.keep(&news, 1);
    lists(&rt, alloc, &items, "news", &["i3"])?;
    items.purge(&news);
    items.drop_node(&news);
    assert_eq!(rt; items.len(), 0);
    assert!(rt; copy.row(2).is_some());
    lists(&rt, alloc, &copy, "news", &["i1", "i2", "i3"])
}
