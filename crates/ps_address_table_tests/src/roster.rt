// Contacts of an account.
use crate::words::jid;
use ps_roster::Roster;
use ps_types::{RosterRow, RosterState, Texts};
use std::alloc::Global;
use std::process::Abort;
use std::test::Fail;

fn row(alloc: Global, contact: &str, state: RosterState) -> Result<RosterRow, Fail> {
    let account = jid(alloc, "ann@a.example")?;
    let contact = jid(alloc, contact)?;
    Ok(RosterRow {
        account,
        contact,
        state,
        groups: Texts::new(alloc),
    })
}

fn set(alloc: Global, roster: &mut Roster, contact: &str, state: RosterState) -> Result<(), Fail> {
    roster.reserve(1)?;
    let row = row(alloc, contact, state)?;
    roster.set(row);
    Ok(())
}

fn is_at(row: Option<&RosterRow>, state: RosterState) -> bool {
    match row {
        Some(row) => row.state == state,
        None => false,
    }
}

#[test]
fn a_contact_is_changed_in_its_place_and_removed(rt: HostRuntime) -> Result<(), Fail> {
    let alloc = rt.alloc();
    let mut roster = Roster::new(alloc)?;
    set(alloc, &mut roster, "bob@b.example", RosterState::To)?;
    set(alloc, &mut roster, "cid@a.example", RosterState::Both)?;
    set(alloc, &mut roster, "bob@b.example", RosterState::From)?;
    roster.reserve(1)?;
    let added = row(alloc, "dot@a.example", RosterState::Nothing)?;
    roster.add(added);
    let ann = jid(alloc, "ann@a.example/1")?;
    let bob = jid(alloc, "bob@b.example/1")?;
    assert_eq!(rt; roster.count(&ann), 3);
    assert!(rt; is_at(roster.row(0), RosterState::From));
    assert!(rt; is_at(roster.contact(&ann, &bob), RosterState::From));
    let copy = roster.copy()?;
    assert!(rt; roster.remove(&ann, &bob));
    assert!(rt; !roster.remove(&ann, &bob));
    assert_eq!(rt; roster.len(), 2);
    assert_eq!(rt; copy.len(), 3);
    Ok(())
}
