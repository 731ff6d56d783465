// Queues of bare addresses, and which address is ready.
use crate::words::jid;
use ps_base::Bytes;
use ps_outbox::Outboxes;
use ps_types::{Notice, Text};
use std::alloc::Global;
use std::process::Abort;
use std::test::Fail;

fn push(
    alloc: Global,
    boxes: &mut Outboxes,
    to: &str,
    place: u64,
    number: u128,
) -> Result<(), Fail> {
    let to = jid(alloc, to)?;
    let line = Bytes::from_vec(Vec::new(alloc));
    boxes.reserve(alloc, &to, 1)?;
    boxes.push(Notice {
        to,
        place,
        number,
        line,
    });
    Ok(())
}

// The number of the notice that is shown, or 0.
fn shown(alloc: Global, boxes: &Outboxes, who: &str, durable: u64) -> Result<u128, Fail> {
    let who = jid(alloc, who)?;
    match boxes.peek(&who, durable) {
        Some(notice) => Ok(notice.number),
        None => Ok(0),
    }
}

fn dropped(alloc: Global, boxes: &mut Outboxes, who: &str) -> Result<bool, Fail> {
    let who = jid(alloc, who)?;
    Ok(boxes.drop_first(&who))
}

// Releases an address, if it is a bare one that is held.
fn released(alloc: Global, boxes: &mut Outboxes, who: &str) -> Result<bool, Fail> {
    let who = jid(alloc, who)?;
    if !who.resource.is_empty() {
        return Ok(false);
    }
    if !boxes.is_held(&who) {
        return Ok(false);
    }
    boxes.release(who);
    Ok(true)
}

// Whether the address is the ready one of the host.
fn is_ready(
    alloc: Global,
    boxes: &Outboxes,
    host: &str,
    durable: u64,
    who: &str,
) -> Result<bool, Fail> {
    let host = Text::of(alloc, host)?;
    let who = jid(alloc, who)?;
    match boxes.ready(&host, durable) {
        Some(ready) => Ok(*ready == who),
        None => Ok(false),
    }
}

fn none_ready(alloc: Global, boxes: &Outboxes, host: &str, durable: u64) -> Result<bool, Fail> {
    let host = Text::of(alloc, host)?;
    Ok(boxes.ready(&host, durable).is_none())
}

#[test]
fn a_queue_is_first_in_first_out(rt: HostRuntime) -> Result<(), Fail> {
    let alloc = rt.alloc();
    let mut boxes = Outboxes::new(alloc)?;
    push(alloc, &mut boxes, "bob@b.example/1", 1, 1)?;
    push(alloc, &mut boxes, "ann@a.example", 1, 1)?;
    push(alloc, &mut boxes, "bob@b.example", 2, 2)?;
    push(alloc, &mut boxes, "bob@b.example/2", 2, 3)?;
    let bob = jid(alloc, "bob@b.example")?;
    assert_eq!(rt; boxes.pending(&bob), 3);
    assert_eq!(rt; shown(alloc, &boxes, "bob@b.example", 1)?, 0);
    for number in [1u128, 2, 3] {
        assert_eq!(rt; shown(alloc, &boxes, "bob@b.example", 3)?, number);
        assert!(rt; dropped(alloc, &mut boxes, "bob@b.example")?);
    }
    assert!(rt; !dropped(alloc, &mut boxes, "bob@b.example")?);
    assert_eq!(rt; shown(alloc, &boxes, "bob@b.example", 3)?, 0);
    assert_eq!(rt; shown(alloc, &boxes, "ann@a.example", 2)?, 1);
    assert_eq!(rt; boxes.pending(&bob), 0);
    Ok(())
}

#[test]
fn the_first_durable_address_of_a_host_is_ready(rt: HostRuntime) -> Result<(), Fail> {
    let alloc = rt.alloc();
    let mut boxes = Outboxes::seeded(alloc, 7)?;
    push(alloc, &mut boxes, "ann@a.example", 1, 1)?;
    push(alloc, &mut boxes, "bob@b.example/1", 2, 1)?;
    push(alloc, &mut boxes, "cid@b.example", 3, 1)?;
    assert!(rt; none_ready(alloc, &boxes, "a.example", 1)?);
    assert!(rt; is_ready(alloc, &boxes, "a.example", 2, "ann@a.example")?);
    assert!(rt; none_ready(alloc, &boxes, "b.example", 2)?);
    assert!(rt; is_ready(alloc, &boxes, "b.example", 4, "bob@b.example")?);
    assert!(rt; dropped(alloc, &mut boxes, "bob@b.example")?);
    assert!(rt; none_ready(alloc, &boxes, "b.example", 3)?);
    assert!(rt; is_ready(alloc, &boxes, "b.example", 4, "cid@b.example")?);
    assert!(rt; none_ready(alloc, &boxes, "c.example", 9)?);
    Ok(())
}

#[test]
fn notices_out_of_order_are_ready_too(rt: HostRuntime) -> Result<(), Fail> {
    let alloc = rt.alloc();
    let mut boxes = Outboxes::new(alloc)?;
    push(alloc, &mut boxes, "bob@b.example", 5, 1)?;
    push(alloc, &mut boxes, "cid@b.example", 2, 1)?;
    assert!(rt; none_ready(alloc, &boxes, "b.example", 2)?);
    assert!(rt; is_ready(alloc, &boxes, "b.example", 3, "cid@b.example")?);
    assert!(rt; dropped(alloc, &mut boxes, "cid@b.example")?);
    assert!(rt; none_ready(alloc, &boxes, "b.example", 5)?);
    assert!(rt; is_ready(alloc, &boxes, "b.example", 6, "bob@b.example")?);
    Ok(())
}

#[test]
fn an_address_that_is_held_is_not_ready(rt: HostRuntime) -> Result<(), Fail> {
    let alloc = rt.alloc();
    let mut boxes = Outboxes::new(alloc)?;
    push(alloc, &mut boxes, "bob@b.example/1", 1, 1)?;
    push(alloc, &mut boxes, "bob@b.example/1", 2, 2)?;
    push(alloc, &mut boxes, "cid@b.example", 2, 1)?;
    let host = Text::of(alloc, "b.example")?;
    assert!(rt; !boxes.holds(&host));
    boxes.hold(jid(alloc, "bob@b.example")?)?;
    assert!(rt; boxes.holds(&host));
    assert!(rt; boxes.is_held(&jid(alloc, "bob@b.example/2")?));
    assert!(rt; !boxes.is_held(&jid(alloc, "cid@b.example")?));
    assert!(rt; is_ready(alloc, &boxes, "b.example", 3, "cid@b.example")?);
    boxes.hold(jid(alloc, "cid@b.example")?)?;
    assert!(rt; none_ready(alloc, &boxes, "b.example", 3)?);
    assert_eq!(rt; shown(alloc, &boxes, "bob@b.example", 3)?, 1);
    push(alloc, &mut boxes, "cid@b.example", 3, 2)?;
    assert!(rt; none_ready(alloc, &boxes, "b.example", 9)?);
    assert!(rt; dropped(alloc, &mut boxes, "bob@b.example")?);
    assert!(rt; released(alloc, &mut boxes, "bob@b.example")?);
    assert!(rt; is_ready(alloc, &boxes, "b.example", 9, "bob@b.example")?);
    assert!(rt; dropped(alloc, &mut boxes, "bob@b.example")?);
    boxes.forget(&jid(alloc, "bob@b.example")?);
    assert!(rt; none_ready(alloc, &boxes, "b.example", 9)?);
    assert!(rt; released(alloc, &mut boxes, "cid@b.example")?);
    assert!(rt; !released(alloc, &mut boxes, "cid@b.example")?);
    assert!(rt; is_ready(alloc, &boxes, "b.example", 9, "cid@b.example")?);
    assert!(rt; !boxes.holds(&host));
    Ok(())
}
