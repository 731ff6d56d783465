// Subscriptions, by exact address.
use crate::words::{jid, node};
use ps_subs::Subs;
use ps_types::{SubOptions, SubRow, SubState};
use std::alloc::Global;
use std::test::Fail;

fn row(alloc: Global, who: &str, state: SubState) -> Result<SubRow, Fail> {
    let node = node(alloc, "q")?;
    let who = jid(alloc, who)?;
    let options = SubOptions {
        items: true,
        deep: false,
    };
    Ok(SubRow {
        node,
        who,
        state,
        options,
    })
}

fn set(alloc: Global, subs: &mut Subs, who: &str, state: SubState) -> Result<(), Fail> {
    subs.reserve(1)?;
    let row = row(alloc, who, state)?;
    subs.set(row);
    Ok(())
}

#[test]
fn rows_are_listed_copied_and_dropped(rt: HostRuntime) -> Result<(), Fail> {
    let alloc = rt.alloc();
    let mut subs = Subs::new(alloc)?;
    set(alloc, &mut subs, "bob@b.example", SubState::Subscribed)?;
    set(alloc, &mut subs, "cid@a.example", SubState::Pending)?;
    subs.reserve(1)?;
    let added = row(alloc, "bob@b.example/1", SubState::Pending)?;
    subs.add(added);
    let q = node(alloc, "q")?;
    let bob = jid(alloc, "bob@b.example/2")?;
    let of_node = subs.of_node(alloc, &q)?;
    assert_eq!(rt; of_node.len(), 3);
    let of_bob = subs.of_address(alloc, &bob)?;
    assert_eq!(rt; of_bob.len(), 2);
    assert_eq!(rt; subs.count(&q), 3);
    assert!(rt; subs.row_of(&q, &bob).is_none());
    assert!(rt; subs.row(2).is_some());
    let copy = subs.copy()?;
    subs.drop_node(&q);
    assert_eq!(rt; subs.len(), 0);
    assert_eq!(rt; copy.len(), 3);
    Ok(())
}
