// What resources want.
use crate::words::jid;
use ps_filter::Wants;
use ps_types::{Jid, Text};
use std::alloc::Global;
use std::process::Abort;
use std::test::Fail;

fn update(alloc: Global, wants: &mut Wants, who: &str, features: &[&str]) -> Result<(), Fail> {
    let mut texts = Vec::new(alloc);
    for feature in features {
        texts.push(Text::of(alloc, feature)?)?;
    }
    let who = jid(alloc, who)?;
    wants.update(alloc, &who, &texts)?;
    Ok(())
}

fn is_wanted(alloc: Global, wants: &Wants, who: &str, name: &str) -> Result<bool, Fail> {
    let who = jid(alloc, who)?;
    Ok(wants.wants(&who, &Text::of(alloc, name)?))
}

fn resource_is(found: &[Jid], at: usize, name: &str) -> bool {
    match found.get(at) {
        Some(who) => who.resource.is(name),
        None => false,
    }
}

#[test]
fn a_resource_wants_what_its_features_ask_for(rt: HostRuntime) -> Result<(), Fail> {
    let alloc = rt.alloc();
    let mut wants = Wants::new(alloc)?;
    let features = [
        "urn:t+notify",
        "urn:u",
        "http://jabber.org/protocol/tune+notify",
    ];
    update(alloc, &mut wants, "bob@b.example/2", &features)?;
    update(alloc, &mut wants, "bob@b.example/1", &["urn:t+notify"])?;
    update(
        alloc,
        &mut wants,
        "ann@a.example/3",
        &["urn:t+notify", "urn:t+notify"],
    )?;
    assert!(rt; is_wanted(alloc, &wants, "bob@b.example/2", "urn:t")?);
    assert!(rt; !is_wanted(alloc, &wants, "bob@b.example/2", "urn:u")?);
    assert!(rt; !is_wanted(alloc, &wants, "bob@b.example", "urn:t")?);
    let name = Text::of(alloc, "urn:t")?;
    let found = wants.resources(alloc, &name)?;
    assert_eq!(rt; found.len(), 3);
    assert!(rt; resource_is(&found, 0, "3"));
    assert!(rt; resource_is(&found, 1, "1"));
    assert!(rt; resource_is(&found, 2, "2"));
    Ok(())
}

#[test]
fn a_resource_that_goes_wants_nothing(rt: HostRuntime) -> Result<(), Fail> {
    let alloc = rt.alloc();
    let mut wants = Wants::seeded(alloc, 7)?;
    for who in ["bob@b.example/1", "bob@b.example/2", "ann@a.example/1"] {
        update(alloc, &mut wants, who, &["urn:t+notify"])?;
    }
    update(alloc, &mut wants, "bob@b.example/2", &["urn:u+notify"])?;
    let copy = wants.copy()?;
    assert!(rt; !is_wanted(alloc, &wants, "bob@b.example/2", "urn:t")?);
    assert!(rt; is_wanted(alloc, &wants, "bob@b.example/2", "urn:u")?);
    let bob = jid(alloc, "bob@b.example/1")?;
    wants.clear(&bob);
    assert!(rt; !is_wanted(alloc, &wants, "bob@b.example/1", "urn:t")?);
    wants.clear_host(&bob.host);
    assert!(rt; !is_wanted(alloc, &wants, "bob@b.example/2", "urn:u")?);
    assert!(rt; is_wanted(alloc, &wants, "ann@a.example/1", "urn:t")?);
    assert!(rt; is_wanted(alloc, &copy, "bob@b.example/1", "urn:t")?);
    Ok(())
}
