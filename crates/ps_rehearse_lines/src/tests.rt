// Stanzas against what was worked out by hand, the first of a seed, and lines that are counted.
use crate::{Counts, count_lines, deal};
use ps_base::Bytes;
use ps_gen::{Generated, stanza};
use ps_wire::print_tree;
use std::alloc::Global;
use std::test::Fail;

const CREATE: &str =
    r#"{"a":{"from":"u0@a.example/r","id":"0","to":"pubsub.example","type":"set"},"c":[{"c":[{"a":{"node":"a.example-0"},"n":"create"}],"n":"pubsub","ns":"http://jabber.org/protocol/pubsub"}],"n":"iq"}"#;

const DELETE: &str =
    r#"{"a":{"from":"u3@b.example/r","id":"1","to":"pubsub.example","type":"set"},"c":[{"c":[{"a":{"node":"b.example-5"},"n":"delete"}],"n":"pubsub","ns":"http://jabber.org/protocol/pubsub#owner"}],"n":"iq"}"#;

const RETRACT: &str =
    r#"{"a":{"from":"u3@a.example/r","id":"2","to":"pubsub.example","type":"set"},"c":[{"c":[{"a":{"node":"a.example-3"},"c":[{"a":{"id":"i3"},"n":"item"}],"n":"retract"}],"n":"pubsub","ns":"http://jabber.org/protocol/pubsub"}],"n":"iq"}"#;

const UNSUBSCRIBE: &str =
    r#"{"a":{"from":"u3@b.example/r","id":"3","to":"pubsub.example","type":"set"},"c":[{"c":[{"a":{"jid":"u3@b.example","node":"b.example-1"},"n":"unsubscribe"}],"n":"pubsub","ns":"http://jabber.org/protocol/pubsub"}],"n":"iq"}"#;

const ITEMS: &str =
    r#"{"a":{"from":"u2@a.example/r","id":"4","to":"pubsub.example","type":"get"},"c":[{"c":[{"a":{"node":"a.example-7"},"n":"items"}],"n":"pubsub","ns":"http://jabber.org/protocol/pubsub"}],"n":"iq"}"#;

const PUBLISH: &str =
    r#"{"a":{"from":"u2@b.example/r","id":"7","to":"pubsub.example","type":"set"},"c":[{"c":[{"a":{"node":"b.example-1"},"c":[{"a":{"id":"i3"},"c":[{"c":["55433"],"n":"entry","ns":"urn:t"}],"n":"item"}],"n":"publish"}],"n":"pubsub","ns":"http://jabber.org/protocol/pubsub"}],"n":"iq"}"#;

const LAST: &str =
    r#"{"a":{"from":"u2@b.example/r","id":"18446744073709551615","to":"pubsub.example","type":"set"},"c":[{"c":[{"a":{"jid":"u2@b.example","node":"b.example-7"},"n":"subscribe"}],"n":"pubsub","ns":"http://jabber.org/protocol/pubsub"}],"n":"iq"}"#;

fn line_at(alloc: Global, seed: u64, place: u64) -> Result<Bytes, Fail> {
    let Generated { tree, .. } = stanza(alloc, seed, place)?;
    Ok(print_tree(alloc, &tree)?)
}

#[test]
fn stanzas_are_dealt_as_by_hand(rt: HostRuntime) -> Result<(), Fail> {
    let alloc = rt.alloc();
    for (seed, place, wanted) in [
        (0, 0, CREATE),
        (0, 1, DELETE),
        (0, 2, RETRACT),
        (0, 3, UNSUBSCRIBE),
        (0, 4, ITEMS),
        (0, 7, PUBLISH),
        (u64::MAX, u64::MAX, LAST),
    ] {
        let line = line_at(alloc, seed, place)?;
        assert_eq!(rt; str::from_utf8(line.as_slice())?, wanted);
    }
    Ok(())
}

#[test]
fn the_hosts_take_turns(rt: HostRuntime) -> Result<(), Fail> {
    let alloc = rt.alloc();
    let dealt = deal(alloc, 0, 2)?;
    assert_eq!(rt; str::from_utf8(&dealt.first)?.trim_end(), CREATE);
    assert_eq!(rt; str::from_utf8(&dealt.second)?.trim_end(), DELETE);
    Ok(())
}

const LINES: &str =
    r#"{"a":{"from":"pubsub.example","id":"1","to":"ann@a.example/1","type":"result"},"n":"iq"}
{"a":{"from":"pubsub.example","id":"2","to":"ann@a.example/1","type":"error"},"c":[{"a":{"type":"cancel"},"c":[{"n":"conflict","ns":"urn:ietf:params:xml:ns:xmpp-stanzas"}],"n":"error"}],"n":"iq"}
{"a":{"from":"pubsub.example","id":"n-1","to":"ann@a.example","type":"headline"},"n":"message"}
{"a":{"line":"1","why":"too-long"},"n":"refused","ns":"urn:pubsubd:line"}
no tree
{"a":{"from":"pubsub.example","id":"3","to":"ann@a.example/1","type":"result"},"n":"iq"}
{"a":{"from":"pubsub.example","id":"4","to":"ann@a.example/1","type":"result"},"n":"iq"}"#;

// What stands behind the last newline is no line.
#[test]
fn whole_lines_are_counted(rt: HostRuntime) -> Result<(), Fail> {
    let counts = count_lines(rt.alloc(), LINES.as_bytes())?;
    let wanted = Counts {
        results: 2,
        errors: 1,
        notices: 2,
    };
    assert_eq!(rt; counts, wanted);
    Ok(())
}
