// An item of a node that is there at the left service alone: who may not read the node is answered the same at both (XEP-0060 §4.5).
// Made by tests/lines/pairs.py from the cases in tests/lines/pairs/items.txt.
pub const ROWS: &str = r#"a.example makes
{"a":{"from":"ann@a.example/1","id":"1","to":"pubsub.example","type":"set"},"c":[{"c":[{"a":{"node":"w"},"n":"create"},{"c":[{"a":{"type":"submit"},"c":[{"a":{"var":"FORM_TYPE"},"c":[{"c":["http://jabber.org/protocol/pubsub#node_config"],"n":"value"}],"n":"field"},{"a":{"var":"pubsub#access_model"},"c":[{"c":["whitelist"],"n":"value"}],"n":"field"}],"n":"x","ns":"jabber:x:data"}],"n":"configure"}],"n":"pubsub","ns":"http://jabber.org/protocol/pubsub"}],"n":"iq"}
{"a":{"from":"pubsub.example","id":"1","to":"ann@a.example/1","type":"result"},"n":"iq"}
=
a.example makes
{"a":{"from":"ann@a.example/1","id":"1","to":"pubsub.example","type":"set"},"c":[{"c":[{"a":{"node":"w"},"n":"create"},{"c":[{"a":{"type":"submit"},"c":[{"a":{"var":"FORM_TYPE"},"c":[{"c":["http://jabber.org/protocol/pubsub#node_config"],"n":"value"}],"n":"field"},{"a":{"var":"pubsub#access_model"},"c":[{"c":["whitelist"],"n":"value"}],"n":"field"}],"n":"x","ns":"jabber:x:data"}],"n":"configure"}],"n":"pubsub","ns":"http://jabber.org/protocol/pubsub"}],"n":"iq"}
{"a":{"from":"pubsub.example","id":"1","to":"ann@a.example/1","type":"result"},"n":"iq"}
-
a.example makes
{"a":{"from":"ann@a.example/1","id":"2","to":"pubsub.example","type":"set"},"c":[{"c":[{"a":{"node":"w"},"c":[{"a":{"id":"x"},"c":[{"n":"entry","ns":"urn:t"}],"n":"item"}],"n":"publish"}],"n":"pubsub","ns":"http://jabber.org/protocol/pubsub"}],"n":"iq"}
{"a":{"from":"pubsub.example","id":"2","to":"ann@a.example/1","type":"result"},"c":[{"c":[{"a":{"node":"w"},"c":[{"a":{"id":"x"},"n":"item"}],"n":"publish"}],"n":"pubsub","ns":"http://jabber.org/protocol/pubsub"}],"n":"iq"}
=
a.example
{"a":{"from":"ann@a.example/1","id":"2","to":"pubsub.example","type":"set"},"c":[{"c":[{"a":{"node":"w"},"c":[{"a":{"id":"x"},"n":"item"}],"n":"retract"}],"n":"pubsub","ns":"http://jabber.org/protocol/pubsub"}],"n":"iq"}
{"a":{"from":"pubsub.example","id":"2","to":"ann@a.example/1","type":"error"},"c":[{"a":{"type":"cancel"},"c":[{"n":"item-not-found","ns":"urn:ietf:params:xml:ns:xmpp-stanzas"}],"n":"error"}],"n":"iq"}
-
a.example makes
{"a":{"from":"ann@a.example/1","id":"3","to":"pubsub.example","type":"set"},"c":[{"c":[{"a":{"node":"w"},"c":[{"a":{"affiliation":"member","jid":"bob@b.example"},"n":"affiliation"},{"a":{"affiliation":"publish-only","jid":"cid@b.example"},"n":"affiliation"},{"a":{"affiliation":"outcast","jid":"dot@b.example"},"n":"affiliation"}],"n":"affiliations"}],"n":"pubsub","ns":"http://jabber.org/protocol/pubsub#owner"}],"n":"iq"}
{"a":{"from":"pubsub.example","id":"3","to":"ann@a.example/1","type":"result"},"n":"iq"}
=
a.example makes
{"a":{"from":"ann@a.example/1","id":"3","to":"pubsub.example","type":"set"},"c":[{"c":[{"a":{"node":"w"},"c":[{"a":{"affiliation":"member","jid":"bob@b.example"},"n":"affiliation"},{"a":{"affiliation":"publish-only","jid":"cid@b.example"},"n":"affiliation"},{"a":{"affiliation":"outcast","jid":"dot@b.example"},"n":"affiliation"}],"n":"affiliations"}],"n":"pubsub","ns":"http://jabber.org/protocol/pubsub#owner"}],"n":"iq"}
{"a":{"from":"pubsub.example","id":"3","to":"ann@a.example/1","type":"result"},"n":"iq"}
-
b.example
{"a":{"from":"alf@b.example/1","id":"4","to":"pubsub.example","type":"get"},"c":[{"c":[{"a":{"node":"w"},"n":"items"}],"n":"pubsub","ns":"http://jabber.org/protocol/pubsub"}],"n":"iq"}
{"a":{"from":"pubsub.example","id":"4","to":"alf@b.example/1","type":"error"},"c":[{"a":{"type":"cancel"},"c":[{"n":"not-allowed","ns":"urn:ietf:params:xml:ns:xmpp-stanzas"},{"n":"closed-node","ns":"http://jabber.org/protocol/pubsub#errors"}],"n":"error"}],"n":"iq"}
=
b.example
{"a":{"from":"alf@b.example/1","id":"4","to":"pubsub.example","type":"get"},"c":[{"c":[{"a":{"node":"w"},"n":"items"}],"n":"pubsub","ns":"http://jabber.org/protocol/pubsub"}],"n":"iq"}
{"a":{"from":"pubsub.example","id":"4","to":"alf@b.example/1","type":"error"},"c":[{"a":{"type":"cancel"},"c":[{"n":"not-allowed","ns":"urn:ietf:params:xml:ns:xmpp-stanzas"},{"n":"closed-node","ns":"http://jabber.org/protocol/pubsub#errors"}],"n":"error"}],"n":"iq"}
-
b.example
{"a":{"from":"alf@b.example/1","id":"5","to":"pubsub.example","type":"get"},"c":[{"a":{"node":"w"},"n":"query","ns":"http://jabber.org/protocol/disco#items"}],"n":"iq"}
{"a":{"from":"pubsub.example","id":"5","to":"alf@b.example/1","type":"error"},"c":[{"a":{"type":"cancel"},"c":[{"n":"not-allowed","ns":"urn:ietf:params:xml:ns:xmpp-stanzas"},{"n":"closed-node","ns":"http://jabber.org/protocol/pubsub#errors"}],"n":"error"}],"n":"iq"}
=
b.example
{"a":{"from":"alf@b.example/1","id":"5","to":"pubsub.example","type":"get"},"c":[{"a":{"node":"w"},"n":"query","ns":"http://jabber.org/protocol/disco#items"}],"n":"iq"}
{"a":{"from":"pubsub.example","id":"5","to":"alf@b.example/1","type":"error"},"c":[{"a":{"type":"cancel"},"c":[{"n":"not-allowed","ns":"urn:ietf:params:xml:ns:xmpp-stanzas"},{"n":"closed-node","ns":"http://jabber.org/protocol/pubsub#errors"}],"n":"error"}],"n":"iq"}
-
b.example
{"a":{"from":"alf@b.example/1","id":"6","to":"pubsub.example","type":"set"},"c":[{"c":[{"a":{"jid":"alf@b.example","node":"w"},"n":"subscribe"}],"n":"pubsub","ns":"http://jabber.org/protocol/pubsub"}],"n":"iq"}
{"a":{"from":"pubsub.example","id":"6","to":"alf@b.example/1","type":"error"},"c":[{"a":{"type":"cancel"},"c":[{"n":"not-allowed","ns":"urn:ietf:params:xml:ns:xmpp-stanzas"},{"n":"closed-node","ns":"http://jabber.org/protocol/pubsub#errors"}],"n":"error"}],"n":"iq"}
=
b.example
{"a":{"from":"alf@b.example/1","id":"6","to":"pubsub.example","type":"set"},"c":[{"c":[{"a":{"jid":"alf@b.example","node":"w"},"n":"subscribe"}],"n":"pubsub","ns":"http://jabber.org/protocol/pubsub"}],"n":"iq"}
{"a":{"from":"pubsub.example","id":"6","to":"alf@b.example/1","type":"error"},"c":[{"a":{"type":"cancel"},"c":[{"n":"not-allowed","ns":"urn:ietf:params:xml:ns:xmpp-stanzas"},{"n":"closed-node","ns":"http://jabber.org/protocol/pubsub#errors"}],"n":"error"}],"n":"iq"}
-
b.example
{"a":{"from":"alf@b.example/1","id":"7","to":"pubsub.example","type":"set"},"c":[{"c":[{"a":{"node":"w"},"c":[{"a":{"id":"x"},"n":"item"}],"n":"retract"}],"n":"pubsub","ns":"http://jabber.org/protocol/pubsub"}],"n":"iq"}
{"a":{"from":"pubsub.example","id":"7","to":"alf@b.example/1","type":"error"},"c":[{"a":{"type":"auth"},"c":[{"n":"forbidden","ns":"urn:ietf:params:xml:ns:xmpp-stanzas"}],"n":"error"}],"n":"iq"}
=
b.example
{"a":{"from":"alf@b.example/1","id":"7","to":"pubsub.example","type":"set"},"c":[{"c":[{"a":{"node":"w"},"c":[{"a":{"id":"x"},"n":"item"}],"n":"retract"}],"n":"pubsub","ns":"http://jabber.org/protocol/pubsub"}],"n":"iq"}
{"a":{"from":"pubsub.example","id":"7","to":"alf@b.example/1","type":"error"},"c":[{"a":{"type":"auth"},"c":[{"n":"forbidden","ns":"urn:ietf:params:xml:ns:xmpp-stanzas"}],"n":"error"}],"n":"iq"}
-
b.example
{"a":{"from":"bob@b.example/1","id":"8","to":"pubsub.example","type":"get"},"c":[{"c":[{"a":{"node":"w"},"n":"items"}],"n":"pubsub","ns":"http://jabber.org/protocol/pubsub"}],"n":"iq"}
{"a":{"from":"pubsub.example","id":"8","to":"bob@b.example/1","type":"result"},"c":[{"c":[{"a":{"node":"w"},"c":[{"a":{"id":"x"},"c":[{"n":"entry","ns":"urn:t"}],"n":"item"}],"n":"items"}],"n":"pubsub","ns":"http://jabber.org/protocol/pubsub"}],"n":"iq"}
=
b.example
{"a":{"from":"bob@b.example/1","id":"8","to":"pubsub.example","type":"get"},"c":[{"c":[{"a":{"node":"w"},"n":"items"}],"n":"pubsub","ns":"http://jabber.org/protocol/pubsub"}],"n":"iq"}
{"a":{"from":"pubsub.example","id":"8","to":"bob@b.example/1","type":"result"},"c":[{"c":[{"a":{"node":"w"},"n":"items"}],"n":"pubsub","ns":"http://jabber.org/protocol/pubsub"}],"n":"iq"}"#;
