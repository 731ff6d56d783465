// A notice that is handed out at the left service alone, of a node whose items are shut to others.
// Made by tests/lines/pairs.py from the cases in tests/lines/pairs/handed.txt.
pub const ROWS: &str = r#"a.example makes
{"a":{"from":"ann@a.example/1","id":"1","to":"pubsub.example","type":"set"},"c":[{"c":[{"a":{"node":"w"},"n":"create"},{"c":[{"a":{"type":"submit"},"c":[{"a":{"var":"FORM_TYPE"},"c":[{"c":["http://jabber.org/protocol/pubsub#node_config"],"n":"value"}],"n":"field"},{"a":{"var":"pubsub#access_model"},"c":[{"c":["whitelist"],"n":"value"}],"n":"field"}],"n":"x","ns":"jabber:x:data"}],"n":"configure"}],"n":"pubsub","ns":"http://jabber.org/protocol/pubsub"}],"n":"iq"}
{"a":{"from":"pubsub.example","id":"1","to":"ann@a.example/1","type":"result"},"n":"iq"}
=
a.example makes
{"a":{"from":"ann@a.example/1","id":"1","to":"pubsub.example","type":"set"},"c":[{"c":[{"a":{"node":"w"},"n":"create"},{"c":[{"a":{"type":"submit"},"c":[{"a":{"var":"FORM_TYPE"},"c":[{"c":["http://jabber.org/protocol/pubsub#node_config"],"n":"value"}],"n":"field"},{"a":{"var":"pubsub#access_model"},"c":[{"c":["whitelist"],"n":"value"}],"n":"field"}],"n":"x","ns":"jabber:x:data"}],"n":"configure"}],"n":"pubsub","ns":"http://jabber.org/protocol/pubsub"}],"n":"iq"}
{"a":{"from":"pubsub.example","id":"1","to":"ann@a.example/1","type":"result"},"n":"iq"}
-
a.example makes
{"a":{"from":"ann@a.example/1","id":"2","to":"pubsub.example","type":"set"},"c":[{"c":[{"a":{"node":"w"},"c":[{"a":{"affiliation":"member","jid":"bob@b.example"},"n":"affiliation"}],"n":"affiliations"}],"n":"pubsub","ns":"http://jabber.org/protocol/pubsub#owner"}],"n":"iq"}
{"a":{"from":"pubsub.example","id":"2","to":"ann@a.example/1","type":"result"},"n":"iq"}
=
a.example makes
{"a":{"from":"ann@a.example/1","id":"2","to":"pubsub.example","type":"set"},"c":[{"c":[{"a":{"node":"w"},"c":[{"a":{"affiliation":"member","jid":"bob@b.example"},"n":"affiliation"}],"n":"affiliations"}],"n":"pubsub","ns":"http://jabber.org/protocol/pubsub#owner"}],"n":"iq"}
{"a":{"from":"pubsub.example","id":"2","to":"ann@a.example/1","type":"result"},"n":"iq"}
-
b.example makes
{"a":{"from":"bob@b.example/1","id":"3","to":"pubsub.example","type":"set"},"c":[{"c":[{"a":{"jid":"bob@b.example","node":"w"},"n":"subscribe"}],"n":"pubsub","ns":"http://jabber.org/protocol/pubsub"}],"n":"iq"}
{"a":{"from":"pubsub.example","id":"3","to":"bob@b.example/1","type":"result"},"c":[{"c":[{"a":{"jid":"bob@b.example","node":"w","subscription":"subscribed"},"n":"subscription"}],"n":"pubsub","ns":"http://jabber.org/protocol/pubsub"}],"n":"iq"}
=
b.example makes
{"a":{"from":"bob@b.example/1","id":"3","to":"pubsub.example","type":"set"},"c":[{"c":[{"a":{"jid":"bob@b.example","node":"w"},"n":"subscribe"}],"n":"pubsub","ns":"http://jabber.org/protocol/pubsub"}],"n":"iq"}
{"a":{"from":"pubsub.example","id":"3","to":"bob@b.example/1","type":"result"},"c":[{"c":[{"a":{"jid":"bob@b.example","node":"w","subscription":"subscribed"},"n":"subscription"}],"n":"pubsub","ns":"http://jabber.org/protocol/pubsub"}],"n":"iq"}
-
a.example makes
{"a":{"from":"ann@a.example/1","id":"4","to":"pubsub.example","type":"set"},"c":[{"c":[{"a":{"node":"w"},"c":[{"a":{"id":"x"},"c":[{"n":"entry","ns":"urn:t"}],"n":"item"}],"n":"publish"}],"n":"pubsub","ns":"http://jabber.org/protocol/pubsub"}],"n":"iq"}
{"a":{"from":"pubsub.example","id":"4","to":"ann@a.example/1","type":"result"},"c":[{"c":[{"a":{"node":"w"},"c":[{"a":{"id":"x"},"n":"item"}],"n":"publish"}],"n":"pubsub","ns":"http://jabber.org/protocol/pubsub"}],"n":"iq"}
> bob@b.example 1 {"a":{"from":"pubsub.example","id":"n-1","to":"bob@b.example","type":"headline"},"c":[{"c":[{"a":{"node":"w"},"c":[{"a":{"id":"x"},"c":[{"n":"entry","ns":"urn:t"}],"n":"item"}],"n":"items"}],"n":"event","ns":"http://jabber.org/protocol/pubsub#event"}],"n":"message"}
=
a.example
{"a":{"from":"ann@a.example/1","id":"4","to":"pubsub.example","type":"set"},"c":[{"c":[{"a":{"node":"w"},"c":[{"a":{"id":"x"},"n":"item"}],"n":"retract"}],"n":"pubsub","ns":"http://jabber.org/protocol/pubsub"}],"n":"iq"}
{"a":{"from":"pubsub.example","id":"4","to":"ann@a.example/1","type":"error"},"c":[{"a":{"type":"cancel"},"c":[{"n":"item-not-found","ns":"urn:ietf:params:xml:ns:xmpp-stanzas"}],"n":"error"}],"n":"iq"}
-
handed bob@b.example


=
not handed bob@b.example


-
a.example makes
{"a":{"from":"ann@a.example/1","id":"6","to":"pubsub.example","type":"set"},"c":[{"c":[{"a":{"node":"n"},"n":"create"}],"n":"pubsub","ns":"http://jabber.org/protocol/pubsub"}],"n":"iq"}
{"a":{"from":"pubsub.example","id":"6","to":"ann@a.example/1","type":"result"},"n":"iq"}
=
a.example makes
{"a":{"from":"ann@a.example/1","id":"6","to":"pubsub.example","type":"set"},"c":[{"c":[{"a":{"node":"n"},"n":"create"}],"n":"pubsub","ns":"http://jabber.org/protocol/pubsub"}],"n":"iq"}
{"a":{"from":"pubsub.example","id":"6","to":"ann@a.example/1","type":"result"},"n":"iq"}
-
b.example makes
{"a":{"from":"alf@b.example/1","id":"7","to":"pubsub.example","type":"set"},"c":[{"c":[{"a":{"jid":"alf@b.example","node":"n"},"n":"subscribe"}],"n":"pubsub","ns":"http://jabber.org/protocol/pubsub"}],"n":"iq"}
{"a":{"from":"pubsub.example","id":"7","to":"alf@b.example/1","type":"result"},"c":[{"c":[{"a":{"jid":"alf@b.example","node":"n","subscription":"subscribed"},"n":"subscription"}],"n":"pubsub","ns":"http://jabber.org/protocol/pubsub"}],"n":"iq"}
=
b.example makes
{"a":{"from":"alf@b.example/1","id":"7","to":"pubsub.example","type":"set"},"c":[{"c":[{"a":{"jid":"alf@b.example","node":"n"},"n":"subscribe"}],"n":"pubsub","ns":"http://jabber.org/protocol/pubsub"}],"n":"iq"}
{"a":{"from":"pubsub.example","id":"7","to":"alf@b.example/1","type":"result"},"c":[{"c":[{"a":{"jid":"alf@b.example","node":"n","subscription":"subscribed"},"n":"subscription"}],"n":"pubsub","ns":"http://jabber.org/protocol/pubsub"}],"n":"iq"}
-
a.example makes
{"a":{"from":"ann@a.example/1","id":"8","to":"pubsub.example","type":"set"},"c":[{"c":[{"a":{"node":"n"},"c":[{"a":{"id":"i"},"c":[{"n":"entry","ns":"urn:t"}],"n":"item"}],"n":"publish"}],"n":"pubsub","ns":"http://jabber.org/protocol/pubsub"}],"n":"iq"}
{"a":{"from":"pubsub.example","id":"8","to":"ann@a.example/1","type":"result"},"c":[{"c":[{"a":{"node":"n"},"c":[{"a":{"id":"i"},"n":"item"}],"n":"publish"}],"n":"pubsub","ns":"http://jabber.org/protocol/pubsub"}],"n":"iq"}
> alf@b.example 1 {"a":{"from":"pubsub.example","id":"n-1","to":"alf@b.example","type":"headline"},"c":[{"c":[{"a":{"node":"n"},"c":[{"a":{"id":"i"},"c":[{"n":"entry","ns":"urn:t"}],"n":"item"}],"n":"items"}],"n":"event","ns":"http://jabber.org/protocol/pubsub#event"}],"n":"message"}
=
a.example makes
{"a":{"from":"ann@a.example/1","id":"8","to":"pubsub.example","type":"set"},"c":[{"c":[{"a":{"node":"n"},"c":[{"a":{"id":"i"},"c":[{"n":"entry","ns":"urn:t"}],"n":"item"}],"n":"publish"}],"n":"pubsub","ns":"http://jabber.org/protocol/pubsub"}],"n":"iq"}
{"a":{"from":"pubsub.example","id":"8","to":"ann@a.example/1","type":"result"},"c":[{"c":[{"a":{"node":"n"},"c":[{"a":{"id":"i"},"n":"item"}],"n":"publish"}],"n":"pubsub","ns":"http://jabber.org/protocol/pubsub"}],"n":"iq"}
> alf@b.example 1 {"a":{"from":"pubsub.example","id":"n-1","to":"alf@b.example","type":"headline"},"c":[{"c":[{"a":{"node":"n"},"c":[{"a":{"id":"i"},"c":[{"n":"entry","ns":"urn:t"}],"n":"item"}],"n":"items"}],"n":"event","ns":"http://jabber.org/protocol/pubsub#event"}],"n":"message"}
-
handed alf@b.example


=
handed alf@b.example


-
not handed alf@b.example


=
not handed alf@b.example


-
a.example makes
{"a":{"from":"ann@a.example/1","id":"11","to":"pubsub.example","type":"set"},"c":[{"c":[{"a":{"node":"w"},"c":[{"a":{"id":"y"},"c":[{"n":"entry","ns":"urn:t"}],"n":"item"}],"n":"publish"}],"n":"pubsub","ns":"http://jabber.org/protocol/pubsub"}],"n":"iq"}
{"a":{"from":"pubsub.example","id":"11","to":"ann@a.example/1","type":"result"},"c":[{"c":[{"a":{"node":"w"},"c":[{"a":{"id":"y"},"n":"item"}],"n":"publish"}],"n":"pubsub","ns":"http://jabber.org/protocol/pubsub"}],"n":"iq"}
> bob@b.example 2 {"a":{"from":"pubsub.example","id":"n-2","to":"bob@b.example","type":"headline"},"c":[{"c":[{"a":{"node":"w"},"c":[{"a":{"id":"y"},"c":[{"n":"entry","ns":"urn:t"}],"n":"item"}],"n":"items"}],"n":"event","ns":"http://jabber.org/protocol/pubsub#event"}],"n":"message"}
=
a.example makes
{"a":{"from":"ann@a.example/1","id":"11","to":"pubsub.example","type":"set"},"c":[{"c":[{"a":{"node":"w"},"c":[{"a":{"id":"y"},"c":[{"n":"entry","ns":"urn:t"}],"n":"item"}],"n":"publish"}],"n":"pubsub","ns":"http://jabber.org/protocol/pubsub"}],"n":"iq"}
{"a":{"from":"pubsub.example","id":"11","to":"ann@a.example/1","type":"result"},"c":[{"c":[{"a":{"node":"w"},"c":[{"a":{"id":"y"},"n":"item"}],"n":"publish"}],"n":"pubsub","ns":"http://jabber.org/protocol/pubsub"}],"n":"iq"}
> bob@b.example 1 {"a":{"from":"pubsub.example","id":"n-1","to":"bob@b.example","type":"headline"},"c":[{"c":[{"a":{"node":"w"},"c":[{"a":{"id":"y"},"c":[{"n":"entry","ns":"urn:t"}],"n":"item"}],"n":"items"}],"n":"event","ns":"http://jabber.org/protocol/pubsub#event"}],"n":"message"}
-
b.example
{"a":{"from":"alf@b.example/1","id":"12","to":"pubsub.example","type":"get"},"c":[{"c":[{"a":{"node":"w"},"n":"items"}],"n":"pubsub","ns":"http://jabber.org/protocol/pubsub"}],"n":"iq"}
{"a":{"from":"pubsub.example","id":"12","to":"alf@b.example/1","type":"error"},"c":[{"a":{"type":"cancel"},"c":[{"n":"not-allowed","ns":"urn:ietf:params:xml:ns:xmpp-stanzas"},{"n":"closed-node","ns":"http://jabber.org/protocol/pubsub#errors"}],"n":"error"}],"n":"iq"}
=
b.example
{"a":{"from":"alf@b.example/1","id":"12","to":"pubsub.example","type":"get"},"c":[{"c":[{"a":{"node":"w"},"n":"items"}],"n":"pubsub","ns":"http://jabber.org/protocol/pubsub"}],"n":"iq"}
{"a":{"from":"pubsub.example","id":"12","to":"alf@b.example/1","type":"error"},"c":[{"a":{"type":"cancel"},"c":[{"n":"not-allowed","ns":"urn:ietf:params:xml:ns:xmpp-stanzas"},{"n":"closed-node","ns":"http://jabber.org/protocol/pubsub#errors"}],"n":"error"}],"n":"iq"}"#;
