// Items of a node that holds one: each service has another, and evicts another.
// Made by tests/lines/pairs.py from the cases in tests/lines/pairs/evictions.txt.
pub const ROWS: &str = r#"a.example makes
{"a":{"from":"ann@a.example/1","id":"1","to":"pubsub.example","type":"set"},"c":[{"c":[{"a":{"node":"w"},"n":"create"},{"c":[{"a":{"type":"submit"},"c":[{"a":{"var":"FORM_TYPE"},"c":[{"c":["http://jabber.org/protocol/pubsub#node_config"],"n":"value"}],"n":"field"},{"a":{"var":"pubsub#access_model"},"c":[{"c":["whitelist"],"n":"value"}],"n":"field"},{"a":{"var":"pubsub#max_items"},"c":[{"c":["1"],"n":"value"}],"n":"field"}],"n":"x","ns":"jabber:x:data"}],"n":"configure"}],"n":"pubsub","ns":"http://jabber.org/protocol/pubsub"}],"n":"iq"}
{"a":{"from":"pubsub.example","id":"1","to":"ann@a.example/1","type":"result"},"n":"iq"}
=
a.example makes
{"a":{"from":"ann@a.example/1","id":"1","to":"pubsub.example","type":"set"},"c":[{"c":[{"a":{"node":"w"},"n":"create"},{"c":[{"a":{"type":"submit"},"c":[{"a":{"var":"FORM_TYPE"},"c":[{"c":["http://jabber.org/protocol/pubsub#node_config"],"n":"value"}],"n":"field"},{"a":{"var":"pubsub#access_model"},"c":[{"c":["whitelist"],"n":"value"}],"n":"field"},{"a":{"var":"pubsub#max_items"},"c":[{"c":["1"],"n":"value"}],"n":"field"}],"n":"x","ns":"jabber:x:data"}],"n":"configure"}],"n":"pubsub","ns":"http://jabber.org/protocol/pubsub"}],"n":"iq"}
{"a":{"from":"pubsub.example","id":"1","to":"ann@a.example/1","type":"result"},"n":"iq"}
-
a.example makes
{"a":{"from":"ann@a.example/1","id":"2","to":"pubsub.example","type":"set"},"c":[{"c":[{"a":{"node":"w"},"c":[{"a":{"id":"x"},"c":[{"n":"entry","ns":"urn:t"}],"n":"item"}],"n":"publish"}],"n":"pubsub","ns":"http://jabber.org/protocol/pubsub"}],"n":"iq"}
{"a":{"from":"pubsub.example","id":"2","to":"ann@a.example/1","type":"result"},"c":[{"c":[{"a":{"node":"w"},"c":[{"a":{"id":"x"},"n":"item"}],"n":"publish"}],"n":"pubsub","ns":"http://jabber.org/protocol/pubsub"}],"n":"iq"}
=
a.example makes
{"a":{"from":"ann@a.example/1","id":"2","to":"pubsub.example","type":"set"},"c":[{"c":[{"a":{"node":"w"},"c":[{"a":{"id":"z"},"c":[{"n":"entry","ns":"urn:t"}],"n":"item"}],"n":"publish"}],"n":"pubsub","ns":"http://jabber.org/protocol/pubsub"}],"n":"iq"}
{"a":{"from":"pubsub.example","id":"2","to":"ann@a.example/1","type":"result"},"c":[{"c":[{"a":{"node":"w"},"c":[{"a":{"id":"z"},"n":"item"}],"n":"publish"}],"n":"pubsub","ns":"http://jabber.org/protocol/pubsub"}],"n":"iq"}
-
b.example
{"a":{"from":"alf@b.example/1","id":"3","to":"pubsub.example","type":"get"},"c":[{"c":[{"a":{"node":"w"},"n":"items"}],"n":"pubsub","ns":"http://jabber.org/protocol/pubsub"}],"n":"iq"}
{"a":{"from":"pubsub.example","id":"3","to":"alf@b.example/1","type":"error"},"c":[{"a":{"type":"cancel"},"c":[{"n":"not-allowed","ns":"urn:ietf:params:xml:ns:xmpp-stanzas"},{"n":"closed-node","ns":"http://jabber.org/protocol/pubsub#errors"}],"n":"error"}],"n":"iq"}
=
b.example
{"a":{"from":"alf@b.example/1","id":"3","to":"pubsub.example","type":"get"},"c":[{"c":[{"a":{"node":"w"},"n":"items"}],"n":"pubsub","ns":"http://jabber.org/protocol/pubsub"}],"n":"iq"}
{"a":{"from":"pubsub.example","id":"3","to":"alf@b.example/1","type":"error"},"c":[{"a":{"type":"cancel"},"c":[{"n":"not-allowed","ns":"urn:ietf:params:xml:ns:xmpp-stanzas"},{"n":"closed-node","ns":"http://jabber.org/protocol/pubsub#errors"}],"n":"error"}],"n":"iq"}
-
b.example
{"a":{"from":"alf@b.example/1","id":"4","to":"pubsub.example","type":"get"},"c":[{"a":{"node":"w"},"n":"query","ns":"http://jabber.org/protocol/disco#items"}],"n":"iq"}
{"a":{"from":"pubsub.example","id":"4","to":"alf@b.example/1","type":"error"},"c":[{"a":{"type":"cancel"},"c":[{"n":"not-allowed","ns":"urn:ietf:params:xml:ns:xmpp-stanzas"},{"n":"closed-node","ns":"http://jabber.org/protocol/pubsub#errors"}],"n":"error"}],"n":"iq"}
=
b.example
{"a":{"from":"alf@b.example/1","id":"4","to":"pubsub.example","type":"get"},"c":[{"a":{"node":"w"},"n":"query","ns":"http://jabber.org/protocol/disco#items"}],"n":"iq"}
{"a":{"from":"pubsub.example","id":"4","to":"alf@b.example/1","type":"error"},"c":[{"a":{"type":"cancel"},"c":[{"n":"not-allowed","ns":"urn:ietf:params:xml:ns:xmpp-stanzas"},{"n":"closed-node","ns":"http://jabber.org/protocol/pubsub#errors"}],"n":"error"}],"n":"iq"}
-
b.example
{"a":{"from":"alf@b.example/1","id":"5","to":"pubsub.example","type":"set"},"c":[{"c":[{"a":{"node":"w"},"c":[{"a":{"id":"x"},"n":"item"}],"n":"retract"}],"n":"pubsub","ns":"http://jabber.org/protocol/pubsub"}],"n":"iq"}
{"a":{"from":"pubsub.example","id":"5","to":"alf@b.example/1","type":"error"},"c":[{"a":{"type":"auth"},"c":[{"n":"forbidden","ns":"urn:ietf:params:xml:ns:xmpp-stanzas"}],"n":"error"}],"n":"iq"}
=
b.example
{"a":{"from":"alf@b.example/1","id":"5","to":"pubsub.example","type":"set"},"c":[{"c":[{"a":{"node":"w"},"c":[{"a":{"id":"x"},"n":"item"}],"n":"retract"}],"n":"pubsub","ns":"http://jabber.org/protocol/pubsub"}],"n":"iq"}
{"a":{"from":"pubsub.example","id":"5","to":"alf@b.example/1","type":"error"},"c":[{"a":{"type":"auth"},"c":[{"n":"forbidden","ns":"urn:ietf:params:xml:ns:xmpp-stanzas"}],"n":"error"}],"n":"iq"}"#;
