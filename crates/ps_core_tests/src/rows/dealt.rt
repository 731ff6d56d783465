// Stanzas of two hosts to nodes of their own.
// Made by tests/lines/hosts.py from the cases in tests/lines/hosts/dealt.txt.
pub const ROWS: &str = r#"a.example makes
{"a":{"from":"u0@a.example/r","id":"1","to":"pubsub.example","type":"set"},"c":[{"c":[{"a":{"node":"a.example-0"},"n":"create"}],"n":"pubsub","ns":"http://jabber.org/protocol/pubsub"}],"n":"iq"}
{"a":{"from":"pubsub.example","id":"1","to":"u0@a.example/r","type":"result"},"n":"iq"}
-
b.example
{"a":{"from":"u3@b.example/r","id":"2","to":"pubsub.example","type":"set"},"c":[{"c":[{"a":{"node":"b.example-5"},"n":"delete"}],"n":"pubsub","ns":"http://jabber.org/protocol/pubsub#owner"}],"n":"iq"}
{"a":{"from":"pubsub.example","id":"2","to":"u3@b.example/r","type":"error"},"c":[{"a":{"type":"cancel"},"c":[{"n":"item-not-found","ns":"urn:ietf:params:xml:ns:xmpp-stanzas"}],"n":"error"}],"n":"iq"}
-
a.example
{"a":{"from":"u3@a.example/r","id":"3","to":"pubsub.example","type":"set"},"c":[{"c":[{"a":{"node":"a.example-3"},"c":[{"a":{"id":"i3"},"n":"item"}],"n":"retract"}],"n":"pubsub","ns":"http://jabber.org/protocol/pubsub"}],"n":"iq"}
{"a":{"from":"pubsub.example","id":"3","to":"u3@a.example/r","type":"error"},"c":[{"a":{"type":"cancel"},"c":[{"n":"item-not-found","ns":"urn:ietf:params:xml:ns:xmpp-stanzas"}],"n":"error"}],"n":"iq"}
-
b.example
{"a":{"from":"u3@b.example/r","id":"4","to":"pubsub.example","type":"set"},"c":[{"c":[{"a":{"jid":"u3@b.example","node":"b.example-1"},"n":"unsubscribe"}],"n":"pubsub","ns":"http://jabber.org/protocol/pubsub"}],"n":"iq"}
{"a":{"from":"pubsub.example","id":"4","to":"u3@b.example/r","type":"error"},"c":[{"a":{"type":"cancel"},"c":[{"n":"item-not-found","ns":"urn:ietf:params:xml:ns:xmpp-stanzas"}],"n":"error"}],"n":"iq"}"#;
