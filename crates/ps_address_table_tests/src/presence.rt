// Resources, and verified strings of capabilities.
use crate::words::jid;
use ps_presence::{Cache, Presence};
use ps_types::{ResourceRow, Text, Texts, VerRow};
use std::alloc::Global;
use std::process::Abort;
use std::test::Fail;

fn set(alloc: Global, presence: &mut Presence, who: &str) -> Result<(), Fail> {
    presence.reserve(1)?;
    let who = jid(alloc, who)?;
    presence.set(ResourceRow {
        who,
        caps: None,
        features: Texts::new(alloc),
    });
    Ok(())
}

fn is_present(alloc: Global, presence: &Presence, who: &str) -> Result<bool, Fail> {
    let who = jid(alloc, who)?;
    Ok(presence.is_present(&who))
}

#[test]
fn a_bare_address_is_present_while_a_resource_is(rt: HostRuntime) -> Result<(), Fail> {
    let alloc = rt.alloc();
    let mut presence = Presence::new(alloc)?;
    for who in [
        "bob@b.example/1",
        "bob@b.example/2",
        "ann@a.example/1",
        "bob@b.example/1",
    ] {
        set(alloc, &mut presence, who)?;
    }
    assert_eq!(rt; presence.len(), 3);
    let bob = jid(alloc, "bob@b.example")?;
    let resources = presence.resources_of(alloc, &bob)?;
    assert_eq!(rt; resources.len(), 2);
    let first = jid(alloc, "bob@b.example/1")?;
    assert!(rt; presence.resource(&first).is_some());
    assert!(rt; presence.clear(&first));
    assert!(rt; !presence.clear(&first));
    assert!(rt; !is_present(alloc, &presence, "bob@b.example/1")?);
    assert!(rt; is_present(alloc, &presence, "bob@b.example")?);
    let copy = presence.copy()?;
    presence.clear_host(&bob.host);
    assert!(rt; !is_present(alloc, &presence, "bob@b.example")?);
    assert!(rt; is_present(alloc, &presence, "ann@a.example/1")?);
    assert!(rt; copy.row(1).is_some());
    Ok(())
}

fn ver(alloc: Global, ver: &str, feature: &str) -> Result<VerRow, Fail> {
    let mut features = Texts::new(alloc);
    features.push(Text::of(alloc, feature)?)?;
    let ver = Text::of(alloc, ver)?;
    Ok(VerRow { ver, features })
}

fn first_is(features: Option<&Texts>, text: &str) -> bool {
    match features {
        Some(features) => match features.as_slice().first() {
            Some(first) => first.is(text),
            None => false,
        },
        None => false,
    }
}

#[test]
fn the_first_row_of_a_string_is_kept(rt: HostRuntime) -> Result<(), Fail> {
    let alloc = rt.alloc();
    let mut cache = Cache::new(alloc)?;
    for feature in ["urn:t+notify", "urn:u"] {
        cache.reserve(1)?;
        let row = ver(alloc, "AAAA", feature)?;
        cache.keep(row);
    }
    cache.reserve(1)?;
    let other = ver(alloc, "BBBB", "urn:v")?;
    cache.add(other);
    assert_eq!(rt; cache.len(), 2);
    let copy = cache.copy()?;
    let text = Text::of(alloc, "AAAA")?;
    assert!(rt; first_is(copy.get(&text), "urn:t+notify"));
    assert!(rt; copy.row(1).is_some());
    Ok(())
}
