// A request that counts at the left service alone: the ids that are made for another address, and its notices, are the same at both.
// Made by tests/lines/pairs.py from the cases in tests/lines/pairs/commits.txt.
pub const ROWS: &str = r#"a.example makes
{"a":{"from":"ann@a.example/1","id":"1","to":"pubsub.example","type":"set"},"c":[{"c":[{"a":{"node":"w"},"n":"create"},{"c":[{"a":{"type":"submit"},"c":[{"a":{"var":"FORM_TYPE"},"c":[{"c":["http://jabber.org/protocol/pubsub#node_config"],"n":"value"}],"n":"field"},{"a":{"var":"pubsub#access_model"},"c":[{"c":["whitelist"],"n":"value"}],"n":"field"}],"n":"x","ns":"jabber:x:data"}],"n":"configure"}],"n":"pubsub","ns":"http://jabber.org/protocol/pubsub"}],"n":"iq"}
{"a":{"from":"pubsub.example","id":"1","to":"ann@a.example/1","type":"result"},"n":"iq"}
=
a.example makes
{"a":{"from":"ann@a.example/1","id":"1","to":"pubsub.example","type":"set"},"c":[{"c":[{"a":{"node":"w"},"n":"create"},{"c":[{"a":{"type":"submit"},"c":[{"a":{"var":"FORM_TYPE"},"c":[{"c":["http://jabber.org/protocol/pubsub#node_config"],"n":"value"}],"n":"field"},{"a":{"var":"pubsub#access_model"},"c":[{"c":["whitelist"],"n":"value"}],"n":"field"}],"n":"x","ns":"jabber:x:data"}],"n":"configure"}],"n":"pubsub","ns":"http://jabber.org/protocol/pubsub"}],"n":"iq"}
{"a":{"from":"pubsub.example","id":"1","to":"ann@a.example/1","type":"result"},"n":"iq"}
-
a.example makes
{"a":{"from":"ann@a.example/1","id":"2","to":"pubsub.example","type":"set"},"c":[{"c":[{"a":{"node":"w"},"c":[{"a":{"id":"x"},"c":[{"n":"entry","ns":"urn:t"}],"n":"item"}],"n":"publish"}],"n":"pubsub","ns":"http://jabber.org/protocol/pubsub"}],"n":"iq"}
{"a":{"from":"pubsub.example","id":"2","to":"ann@a.example/1","type":"result"},"c":[{"c":[{"a":{"node":"w"},"c":[{"a":{"id":"x"},"n":"item"}],"n":"publish"}],"n":"pubsub","ns":"http://jabber.org/protocol/pubsub"}],"n":"iq"}
=
a.example
{"a":{"from":"ann@a.example/1","id":"2","to":"pubsub.example","type":"set"},"c":[{"c":[{"a":{"node":"w"},"c":[{"a":{"id":"x"},"n":"item"}],"n":"retract"}],"n":"pubsub","ns":"http://jabber.org/protocol/pubsub"}],"n":"iq"}
{"a":{"from":"pubsub.example","id":"2","to":"ann@a.example/1","type":"error"},"c":[{"a":{"type":"cancel"},"c":[{"n":"item-not-found","ns":"urn:ietf:params:xml:ns:xmpp-stanzas"}],"n":"error"}],"n":"iq"}
-
a.example makes
{"a":{"from":"ann@a.example/1","id":"3","to":"pubsub.example","type":"set"},"c":[{"c":[{"a":{"node":"w"},"c":[{"a":{"id":"x"},"n":"item"}],"n":"retract"}],"n":"pubsub","ns":"http://jabber.org/protocol/pubsub"}],"n":"iq"}
{"a":{"from":"pubsub.example","id":"3","to":"ann@a.example/1","type":"result"},"n":"iq"}
=
a.example
{"a":{"from":"ann@a.example/1","id":"3","to":"pubsub.example","type":"set"},"c":[{"c":[{"a":{"node":"w"},"c":[{"a":{"id":"x"},"n":"item"}],"n":"retract"}],"n":"pubsub","ns":"http://jabber.org/protocol/pubsub"}],"n":"iq"}
{"a":{"from":"pubsub.example","id":"3","to":"ann@a.example/1","type":"error"},"c":[{"a":{"type":"cancel"},"c":[{"n":"item-not-found","ns":"urn:ietf:params:xml:ns:xmpp-stanzas"}],"n":"error"}],"n":"iq"}
-
a.example makes
{"a":{"from":"ann@a.example/1","id":"4","to":"pubsub.example","type":"set"},"c":[{"c":[{"a":{"node":"w"},"c":[{"a":{"id":"y"},"c":[{"n":"entry","ns":"urn:t"}],"n":"item"}],"n":"publish"}],"n":"pubsub","ns":"http://jabber.org/protocol/pubsub"}],"n":"iq"}
{"a":{"from":"pubsub.example","id":"4","to":"ann@a.example/1","type":"result"},"c":[{"c":[{"a":{"node":"w"},"c":[{"a":{"id":"y"},"n":"item"}],"n":"publish"}],"n":"pubsub","ns":"http://jabber.org/protocol/pubsub"}],"n":"iq"}
=
a.example makes
{"a":{"from":"ann@a.example/1","id":"4","to":"pubsub.example","type":"set"},"c":[{"c":[{"a":{"node":"w"},"c":[{"a":{"id":"y"},"c":[{"n":"entry","ns":"urn:t"}],"n":"item"}],"n":"publish"}],"n":"pubsub","ns":"http://jabber.org/protocol/pubsub"}],"n":"iq"}
{"a":{"from":"pubsub.example","id":"4","to":"ann@a.example/1","type":"result"},"c":[{"c":[{"a":{"node":"w"},"c":[{"a":{"id":"y"},"n":"item"}],"n":"publish"}],"n":"pubsub","ns":"http://jabber.org/protocol/pubsub"}],"n":"iq"}
-
b.example makes
{"a":{"from":"alf@b.example/1","id":"5","to":"pubsub.example","type":"set"},"c":[{"c":[{"a":{"node":"alf"},"n":"create"}],"n":"pubsub","ns":"http://jabber.org/protocol/pubsub"}],"n":"iq"}
{"a":{"from":"pubsub.example","id":"5","to":"alf@b.example/1","type":"result"},"n":"iq"}
=
b.example makes
{"a":{"from":"alf@b.example/1","id":"5","to":"pubsub.example","type":"set"},"c":[{"c":[{"a":{"node":"alf"},"n":"create"}],"n":"pubsub","ns":"http://jabber.org/protocol/pubsub"}],"n":"iq"}
{"a":{"from":"pubsub.example","id":"5","to":"alf@b.example/1","type":"result"},"n":"iq"}
-
b.example makes
{"a":{"from":"alf@b.example/1","id":"6","to":"pubsub.example","type":"set"},"c":[{"c":[{"a":{"jid":"alf@b.example","node":"alf"},"n":"subscribe"}],"n":"pubsub","ns":"http://jabber.org/protocol/pubsub"}],"n":"iq"}
{"a":{"from":"pubsub.example","id":"6","to":"alf@b.example/1","type":"result"},"c":[{"c":[{"a":{"jid":"alf@b.example","node":"alf","subscription":"subscribed"},"n":"subscription"}],"n":"pubsub","ns":"http://jabber.org/protocol/pubsub"}],"n":"iq"}
=
b.example makes
{"a":{"from":"alf@b.example/1","id":"6","to":"pubsub.example","type":"set"},"c":[{"c":[{"a":{"jid":"alf@b.example","node":"alf"},"n":"subscribe"}],"n":"pubsub","ns":"http://jabber.org/protocol/pubsub"}],"n":"iq"}
{"a":{"from":"pubsub.example","id":"6","to":"alf@b.example/1","type":"result"},"c":[{"c":[{"a":{"jid":"alf@b.example","node":"alf","subscription":"subscribed"},"n":"subscription"}],"n":"pubsub","ns":"http://jabber.org/protocol/pubsub"}],"n":"iq"}
-
b.example makes
{"a":{"from":"alf@b.example/1","id":"7","to":"pubsub.example","type":"set"},"c":[{"c":[{"a":{"node":"alf"},"c":[{"c":[{"n":"entry","ns":"urn:t"}],"n":"item"}],"n":"publish"}],"n":"pubsub","ns":"http://jabber.org/protocol/pubsub"}],"n":"iq"}
{"a":{"from":"pubsub.example","id":"7","to":"alf@b.example/1","type":"result"},"c":[{"c":[{"a":{"node":"alf"},"c":[{"a":{"id":"auto-1-alf@b.example"},"n":"item"}],"n":"publish"}],"n":"pubsub","ns":"http://jabber.org/protocol/pubsub"}],"n":"iq"}
> alf@b.example 1 {"a":{"from":"pubsub.example","id":"n-1","to":"alf@b.example","type":"headline"},"c":[{"c":[{"a":{"node":"alf"},"c":[{"a":{"id":"auto-1-alf@b.example"},"c":[{"n":"entry","ns":"urn:t"}],"n":"item"}],"n":"items"}],"n":"event","ns":"http://jabber.org/protocol/pubsub#event"}],"n":"message"}
=
b.example makes
{"a":{"from":"alf@b.example/1","id":"7","to":"pubsub.example","type":"set"},"c":[{"c":[{"a":{"node":"alf"},"c":[{"c":[{"n":"entry","ns":"urn:t"}],"n":"item"}],"n":"publish"}],"n":"pubsub","ns":"http://jabber.org/protocol/pubsub"}],"n":"iq"}
{"a":{"from":"pubsub.example","id":"7","to":"alf@b.example/1","type":"result"},"c":[{"c":[{"a":{"node":"alf"},"c":[{"a":{"id":"auto-1-alf@b.example"},"n":"item"}],"n":"publish"}],"n":"pubsub","ns":"http://jabber.org/protocol/pubsub"}],"n":"iq"}
> alf@b.example 1 {"a":{"from":"pubsub.example","id":"n-1","to":"alf@b.example","type":"headline"},"c":[{"c":[{"a":{"node":"alf"},"c":[{"a":{"id":"auto-1-alf@b.example"},"c":[{"n":"entry","ns":"urn:t"}],"n":"item"}],"n":"items"}],"n":"event","ns":"http://jabber.org/protocol/pubsub#event"}],"n":"message"}"#;
