// The ten rows as trees, written by hand, and trees that are none.
use ps_compact_codec::{StoredRow, accepted_rows_are_held, read_row, row_tree};
use ps_types::{Affil, RosterState};
use ps_wire::{print_tree, read_tree};
use std::alloc::Global;
use std::process::Abort;
use std::test::Fail;

pub(crate) const NODE: &str =
    r#"{"a":{"creator":"ann@a.example","name":"news","service":"pubsub.example"},"c":[{"a":{"type":"form"},"c":[{"a":{"type":"hidden","var":"FORM_TYPE"},"c":[{"c":["http://jabber.org/protocol/pubsub#node_config"],"n":"value"}],"n":"field"},{"a":{"type":"text-single","var":"pubsub#title"},"c":[{"n":"value"}],"n":"field"},{"a":{"type":"boolean","var":"pubsub#deliver_notifications"},"c":[{"c":["1"],"n":"value"}],"n":"field"},{"a":{"type":"boolean","var":"pubsub#deliver_payloads"},"c":[{"c":["1"],"n":"value"}],"n":"field"},{"a":{"type":"boolean","var":"pubsub#notify_config"},"c":[{"c":["0"],"n":"value"}],"n":"field"},{"a":{"type":"boolean","var":"pubsub#notify_delete"},"c":[{"c":["0"],"n":"value"}],"n":"field"},{"a":{"type":"boolean","var":"pubsub#notify_retract"},"c":[{"c":["0"],"n":"value"}],"n":"field"},{"a":{"type":"boolean","var":"pubsub#persist_items"},"c":[{"c":["1"],"n":"value"}],"n":"field"},{"a":{"type":"text-single","var":"pubsub#max_items"},"c":[{"c":["10"],"n":"value"}],"n":"field"},{"a":{"type":"list-single","var":"pubsub#access_model"},"c":[{"c":["open"],"n":"value"}],"n":"field"},{"a":{"type":"list-single","var":"pubsub#publish_model"},"c":[{"c":["publishers"],"n":"value"}],"n":"field"},{"a":{"type":"list-multi","var":"pubsub#roster_groups_allowed"},"n":"field"},{"a":{"type":"list-single","var":"pubsub#send_last_published_item"},"c":[{"c":["never"],"n":"value"}],"n":"field"},{"a":{"type":"boolean","var":"pubsub#presence_based_delivery"},"c":[{"c":["0"],"n":"value"}],"n":"field"},{"a":{"type":"list-single","var":"pubsub#notification_type"},"c":[{"c":["headline"],"n":"value"}],"n":"field"},{"a":{"type":"text-single","var":"pubsub#max_payload_size"},"c":[{"c":["65536"],"n":"value"}],"n":"field"},{"a":{"type":"list-single","var":"pubsub#node_type"},"c":[{"c":["leaf"],"n":"value"}],"n":"field"},{"a":{"type":"text-single","var":"pubsub#collection"},"c":[{"n":"value"}],"n":"field"}],"n":"x","ns":"jabber:x:data"}],"n":"node","ns":"urn:pubsubd:base"}"#;

pub(crate) const AFFILIATION: &str =
    r#"{"a":{"affiliation":"owner","jid":"ann@a.example","name":"news","service":"pubsub.example"},"n":"affiliation","ns":"urn:pubsubd:base"}"#;

pub(crate) const SUBSCRIPTION: &str =
    r#"{"a":{"depth":"1","jid":"bob@b.example/1","name":"news","service":"pubsub.example","subscription":"subscribed","type":"items"},"n":"subscription","ns":"urn:pubsubd:base"}"#;

pub(crate) const ITEM: &str =
    r#"{"a":{"id":"i1","moment":"1700000000","name":"news","publisher":"ann@a.example","service":"pubsub.example"},"c":[{"c":["hi"],"n":"entry","ns":"urn:t"}],"n":"item","ns":"urn:pubsubd:base"}"#;

const LINK: &str =
    r#"{"a":{"collection":"all","name":"news","service":"pubsub.example"},"n":"link","ns":"urn:pubsubd:base"}"#;

const CONTACT: &str =
    r#"{"a":{"account":"ann@a.example","jid":"bob@b.example","subscription":"both"},"c":[{"c":["friends"],"n":"group"},{"n":"group"}],"n":"contact","ns":"urn:pubsubd:base"}"#;

const VER: &str =
    r#"{"a":{"ver":"QgayPKawpkPSDYmwT/WM94uAlu0="},"c":[{"a":{"var":"urn:f"},"n":"feature"}],"n":"ver","ns":"urn:pubsubd:base"}"#;

const MADE: &str =
    r#"{"a":{"count":"7","jid":"ann@a.example","name":"news","service":"pubsub.example"},"n":"made","ns":"urn:pubsubd:base"}"#;

pub(crate) const COUNTER: &str =
    r#"{"a":{"handed":"1","jid":"bob@b.example"},"n":"counter","ns":"urn:pubsubd:base"}"#;

const NOTICE: &str =
    r#"{"a":{"jid":"bob@b.example"},"c":["{\"n\":\"message\"}"],"n":"notice","ns":"urn:pubsubd:base"}"#;

// The row of that text.
fn read(alloc: Global, text: &str) -> Result<Option<StoredRow>, Fail> {
    let tree = read_tree(alloc, text.as_bytes())?;
    Ok(read_row(alloc, &tree)?)
}

fn is_printed_as(alloc: Global, row: &StoredRow, text: &str) -> Result<bool, Fail> {
    let printed = print_tree(alloc, &row_tree(alloc, row)?)?;
    Ok(printed.as_slice() == text.as_bytes())
}

#[test]
fn each_row_is_read_and_written(rt: HostRuntime) -> Result<(), Fail> {
    for text in [
        NODE,
        AFFILIATION,
        SUBSCRIPTION,
        ITEM,
        LINK,
        CONTACT,
        VER,
        MADE,
        COUNTER,
        NOTICE,
    ] {
        match read(rt.alloc(), text)? {
            Some(row) => {
                let same = is_printed_as(rt.alloc(), &row, text)?;
                assert!(rt; same);
            }
            None => assert!(rt; false),
        }
    }
    accepted_rows_are_held();
    Ok(())
}

#[test]
fn a_row_has_what_its_tree_says(rt: HostRuntime) -> Result<(), Fail> {
    let row = read(rt.alloc(), AFFILIATION)?;
    match &row {
        Some(StoredRow::Affiliation(affil)) => {
            assert!(rt; affil.affil == Affil::Owner);
            assert!(rt; affil.who.local.is("ann"));
            assert!(rt; affil.node.name.is("news"));
            assert!(rt; affil.node.service.host.is("pubsub.example"));
        }
        _ => assert!(rt; false),
    }
    let row = read(rt.alloc(), ITEM)?;
    match &row {
        Some(StoredRow::Item(item)) => {
            assert!(rt; item.id.is("i1"));
            assert!(rt; item.moment == Some(1_700_000_000));
            assert!(rt; item.payload.is_some());
        }
        _ => assert!(rt; false),
    }
    let row = read(rt.alloc(), CONTACT)?;
    match &row {
        Some(StoredRow::Contact(contact)) => {
            assert!(rt; contact.state == RosterState::Both);
            assert_eq!(rt; contact.groups.as_slice().len(), 2);
        }
        _ => assert!(rt; false),
    }
    Ok(())
}

#[test]
fn what_is_written_otherwise_is_no_row(rt: HostRuntime) -> Result<(), Fail> {
    for text in [
        r#"{"a":{"handed":"01","jid":"bob@b.example"},"n":"counter","ns":"urn:pubsubd:base"}"#,
        r#"{"a":{"handed":"+1","jid":"bob@b.example"},"n":"counter","ns":"urn:pubsubd:base"}"#,
        r#"{"a":{"handed":"a","jid":"bob@b.example"},"n":"counter","ns":"urn:pubsubd:base"}"#,
        r#"{"a":{"handed":"18446744073709551616","jid":"bob@b.example"},"n":"counter","ns":"urn:pubsubd:base"}"#,
        r#"{"a":{"jid":"bob@b.example"},"n":"counter","ns":"urn:pubsubd:base"}"#,
        r#"{"a":{"handed":"1","jid":"Bob@b.example"},"n":"counter","ns":"urn:pubsubd:base"}"#,
        r#"{"a":{"handed":"1","jid":"b@@b"},"n":"counter","ns":"urn:pubsubd:base"}"#,
        r#"{"a":{"handed":"1","jid":"bob@b.example","more":"1"},"n":"counter","ns":"urn:pubsubd:base"}"#,
        r#"{"a":{"handed":"1","jid":"bob@b.example"},"c":["x"],"n":"counter","ns":"urn:pubsubd:base"}"#,
        r#"{"a":{"handed":"1","jid":"bob@b.example"},"n":"counter","ns":"urn:other"}"#,
        r#"{"a":{"handed":"1","jid":"bob@b.example"},"n":"counters","ns":"urn:pubsubd:base"}"#,
        r#"{"a":{"affiliation":"king","jid":"ann@a.example","name":"news","service":"pubsub.example"},"n":"affiliation","ns":"urn:pubsubd:base"}"#,
        r#"{"a":{"jid":"bob@b.example"},"c":["a","b"],"n":"notice","ns":"urn:pubsubd:base"}"#,
        r#"{"a":{"creator":"ann@a.example","name":"news","service":"pubsub.example"},"n":"node","ns":"urn:pubsubd:base"}"#,
    ] {
        let row = read(rt.alloc(), text)?;
        assert!(rt; row.is_none());
    }
    Ok(())
}
