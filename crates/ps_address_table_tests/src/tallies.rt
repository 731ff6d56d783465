// Numbers of notices by bare address.
use crate::words::jid;
use ps_notice_numbers::Tallies;
use std::process::Abort;
use std::test::Fail;

#[test]
fn notices_are_counted_by_bare_address(rt: HostRuntime) -> Result<(), Fail> {
    let alloc = rt.alloc();
    let mut tallies = Tallies::new(alloc)?;
    let ann = jid(alloc, "ann@a.example")?;
    let bob = jid(alloc, "bob@b.example/1")?;
    assert_eq!(rt; tallies.made(&ann), 0);
    for resource in ["ann@a.example/1", "ann@a.example/2"] {
        tallies.reserve(1)?;
        let who = jid(alloc, resource)?;
        tallies.set(who, 4, 1);
    }
    assert_eq!(rt; tallies.made(&ann), 4);
    assert_eq!(rt; tallies.handed(&ann), 1);
    assert_eq!(rt; tallies.made(&bob), 0);
    assert_eq!(rt; tallies.len(), 1);
    let copy = tallies.copy()?;
    tallies.reserve(1)?;
    tallies.set(bob, 1, 0);
    assert_eq!(rt; tallies.len(), 2);
    assert!(rt; copy.row(1).is_none());
    assert!(rt; tallies.row_of(&ann).is_some());
    Ok(())
}
