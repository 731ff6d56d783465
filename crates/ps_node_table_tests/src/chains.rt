// Chains of places.
use ps_chains::Chains;
use std::process::Abort;
use std::test::Fail;

#[test]
fn places_of_a_digest_are_linked(rt: HostRuntime) -> Result<(), Fail> {
    let mut chains = Chains::new(rt.alloc());
    chains.reserve(4)?;
    chains.push(7);
    chains.push(0);
    chains.push(7);
    chains.push(7);
    assert!(rt; chains.first(7) == Some(0));
    assert!(rt; chains.next(0) == Some(2));
    assert!(rt; chains.last(7) == Some(3));
    assert!(rt; chains.prior(3) == Some(2));
    assert_eq!(rt; chains.count(7), 3);
    chains.remove(2);
    assert!(rt; chains.next(0) == Some(3));
    assert!(rt; chains.prior(3) == Some(0));
    assert!(rt; chains.first(0) == Some(1));
    assert_eq!(rt; chains.count(7), 2);
    chains.clear();
    assert!(rt; chains.first(7).is_none());
    assert_eq!(rt; chains.len(), 0);
    Ok(())
}
