// Notices are handed out in their order, each address's by itself.
// Made by tests/lines/hosts.py from the cases in tests/lines/hosts/handed.txt.
pub const ROWS: &str = r#"a.example makes
{"a":{"from":"ann@a.example/1","id":"1","to":"pubsub.example","type":"set"},"c":[{"c":[{"a":{"node":"news"},"n":"create"}],"n":"pubsub","ns":"http://jabber.org/protocol/pubsub"}],"n":"iq"}
{"a":{"from":"pubsub.example","id":"1","to":"ann@a.example/1","type":"result"},"n":"iq"}
-
not handed ann@a.example


-
a.example makes
{"a":{"from":"ann@a.example/1","id":"3","to":"pubsub.example","type":"set"},"c":[{"c":[{"a":{"jid":"ann@a.example","node":"news"},"n":"subscribe"}],"n":"pubsub","ns":"http://jabber.org/protocol/pubsub"}],"n":"iq"}
{"a":{"from":"pubsub.example","id":"3","to":"ann@a.example/1","type":"result"},"c":[{"c":[{"a":{"jid":"ann@a.example","node":"news","subscription":"subscribed"},"n":"subscription"}],"n":"pubsub","ns":"http://jabber.org/protocol/pubsub"}],"n":"iq"}
-
a.example makes
{"a":{"from":"ann@a.example/1","id":"4","to":"pubsub.example","type":"set"},"c":[{"c":[{"a":{"node":"news"},"c":[{"a":{"id":"i1"},"c":[{"n":"entry","ns":"urn:t"}],"n":"item"}],"n":"publish"}],"n":"pubsub","ns":"http://jabber.org/protocol/pubsub"}],"n":"iq"}
{"a":{"from":"pubsub.example","id":"4","to":"ann@a.example/1","type":"result"},"c":[{"c":[{"a":{"node":"news"},"c":[{"a":{"id":"i1"},"n":"item"}],"n":"publish"}],"n":"pubsub","ns":"http://jabber.org/protocol/pubsub"}],"n":"iq"}
> ann@a.example 1 {"a":{"from":"pubsub.example","id":"n-1","to":"ann@a.example","type":"headline"},"c":[{"c":[{"a":{"node":"news"},"c":[{"a":{"id":"i1"},"c":[{"n":"entry","ns":"urn:t"}],"n":"item"}],"n":"items"}],"n":"event","ns":"http://jabber.org/protocol/pubsub#event"}],"n":"message"}
-
a.example makes
{"a":{"from":"ann@a.example/1","id":"5","to":"pubsub.example","type":"set"},"c":[{"c":[{"a":{"node":"news"},"c":[{"a":{"id":"i2"},"c":[{"n":"entry","ns":"urn:t"}],"n":"item"}],"n":"publish"}],"n":"pubsub","ns":"http://jabber.org/protocol/pubsub"}],"n":"iq"}
{"a":{"from":"pubsub.example","id":"5","to":"ann@a.example/1","type":"result"},"c":[{"c":[{"a":{"node":"news"},"c":[{"a":{"id":"i2"},"n":"item"}],"n":"publish"}],"n":"pubsub","ns":"http://jabber.org/protocol/pubsub"}],"n":"iq"}
> ann@a.example 2 {"a":{"from":"pubsub.example","id":"n-2","to":"ann@a.example","type":"headline"},"c":[{"c":[{"a":{"node":"news"},"c":[{"a":{"id":"i2"},"c":[{"n":"entry","ns":"urn:t"}],"n":"item"}],"n":"items"}],"n":"event","ns":"http://jabber.org/protocol/pubsub#event"}],"n":"message"}
-
not handed bob@b.example


-
not handed ann@a.example/1


-
not handed ann@b.example


-
handed ann@a.example


-
gone a.example


-
boot


-
a.example makes
{"a":{"from":"ann@a.example/1","id":"12","to":"pubsub.example","type":"set"},"c":[{"c":[{"a":{"node":"news"},"c":[{"a":{"id":"i3"},"c":[{"n":"entry","ns":"urn:t"}],"n":"item"}],"n":"publish"}],"n":"pubsub","ns":"http://jabber.org/protocol/pubsub"}],"n":"iq"}
{"a":{"from":"pubsub.example","id":"12","to":"ann@a.example/1","type":"result"},"c":[{"c":[{"a":{"node":"news"},"c":[{"a":{"id":"i3"},"n":"item"}],"n":"publish"}],"n":"pubsub","ns":"http://jabber.org/protocol/pubsub"}],"n":"iq"}
> ann@a.example 3 {"a":{"from":"pubsub.example","id":"n-3","to":"ann@a.example","type":"headline"},"c":[{"c":[{"a":{"node":"news"},"c":[{"a":{"id":"i3"},"c":[{"n":"entry","ns":"urn:t"}],"n":"item"}],"n":"items"}],"n":"event","ns":"http://jabber.org/protocol/pubsub#event"}],"n":"message"}
-
handed ann@a.example


-
handed ann@a.example


-
not handed ann@a.example


-
a.example makes
{"a":{"from":"ann@a.example/1","id":"16","to":"pubsub.example","type":"set"},"c":[{"c":[{"a":{"jid":"ann@a.example/1","node":"news"},"n":"subscribe"}],"n":"pubsub","ns":"http://jabber.org/protocol/pubsub"}],"n":"iq"}
{"a":{"from":"pubsub.example","id":"16","to":"ann@a.example/1","type":"result"},"c":[{"c":[{"a":{"jid":"ann@a.example/1","node":"news","subscription":"subscribed"},"n":"subscription"}],"n":"pubsub","ns":"http://jabber.org/protocol/pubsub"}],"n":"iq"}
-
b.example makes
{"a":{"from":"bob@b.example/1","id":"17","to":"pubsub.example","type":"set"},"c":[{"c":[{"a":{"jid":"bob@b.example","node":"news"},"n":"subscribe"}],"n":"pubsub","ns":"http://jabber.org/protocol/pubsub"}],"n":"iq"}
{"a":{"from":"pubsub.example","id":"17","to":"bob@b.example/1","type":"result"},"c":[{"c":[{"a":{"jid":"bob@b.example","node":"news","subscription":"subscribed"},"n":"subscription"}],"n":"pubsub","ns":"http://jabber.org/protocol/pubsub"}],"n":"iq"}
-
a.example makes
{"a":{"from":"ann@a.example/1","id":"18","to":"pubsub.example","type":"set"},"c":[{"c":[{"a":{"node":"news"},"c":[{"a":{"id":"i4"},"c":[{"n":"entry","ns":"urn:t"}],"n":"item"}],"n":"publish"}],"n":"pubsub","ns":"http://jabber.org/protocol/pubsub"}],"n":"iq"}
{"a":{"from":"pubsub.example","id":"18","to":"ann@a.example/1","type":"result"},"c":[{"c":[{"a":{"node":"news"},"c":[{"a":{"id":"i4"},"n":"item"}],"n":"publish"}],"n":"pubsub","ns":"http://jabber.org/protocol/pubsub"}],"n":"iq"}
> ann@a.example 4 {"a":{"from":"pubsub.example","id":"n-4","to":"ann@a.example","type":"headline"},"c":[{"c":[{"a":{"node":"news"},"c":[{"a":{"id":"i4"},"c":[{"n":"entry","ns":"urn:t"}],"n":"item"}],"n":"items"}],"n":"event","ns":"http://jabber.org/protocol/pubsub#event"}],"n":"message"}
> ann@a.example/1 5 {"a":{"from":"pubsub.example","id":"n-5","to":"ann@a.example/1","type":"headline"},"c":[{"c":[{"a":{"node":"news"},"c":[{"a":{"id":"i4"},"c":[{"n":"entry","ns":"urn:t"}],"n":"item"}],"n":"items"}],"n":"event","ns":"http://jabber.org/protocol/pubsub#event"}],"n":"message"}
> bob@b.example 1 {"a":{"from":"pubsub.example","id":"n-1","to":"bob@b.example","type":"headline"},"c":[{"c":[{"a":{"node":"news"},"c":[{"a":{"id":"i4"},"c":[{"n":"entry","ns":"urn:t"}],"n":"item"}],"n":"items"}],"n":"event","ns":"http://jabber.org/protocol/pubsub#event"}],"n":"message"}
-
handed ann@a.example


-
handed bob@b.example


-
not handed bob@b.example


-
handed ann@a.example


-
not handed ann@a.example


-
a.example makes
{"a":{"from":"ann@a.example/1","id":"24","to":"pubsub.example","type":"set"},"c":[{"c":[{"a":{"node":"news"},"c":[{"a":{"jid":"ann@a.example","subscription":"none"},"n":"subscription"},{"a":{"jid":"ann@a.example/1","subscription":"none"},"n":"subscription"},{"a":{"jid":"bob@b.example","subscription":"none"},"n":"subscription"}],"n":"subscriptions"}],"n":"pubsub","ns":"http://jabber.org/protocol/pubsub#owner"}],"n":"iq"}
{"a":{"from":"pubsub.example","id":"24","to":"ann@a.example/1","type":"result"},"n":"iq"}
> ann@a.example 6 {"a":{"from":"pubsub.example","id":"n-6","to":"ann@a.example"},"c":[{"c":[{"a":{"jid":"ann@a.example","node":"news","subscription":"none"},"n":"subscription"}],"n":"pubsub","ns":"http://jabber.org/protocol/pubsub"}],"n":"message"}
> ann@a.example/1 7 {"a":{"from":"pubsub.example","id":"n-7","to":"ann@a.example/1"},"c":[{"c":[{"a":{"jid":"ann@a.example/1","node":"news","subscription":"none"},"n":"subscription"}],"n":"pubsub","ns":"http://jabber.org/protocol/pubsub"}],"n":"message"}
> bob@b.example 2 {"a":{"from":"pubsub.example","id":"n-2","to":"bob@b.example"},"c":[{"c":[{"a":{"jid":"bob@b.example","node":"news","subscription":"none"},"n":"subscription"}],"n":"pubsub","ns":"http://jabber.org/protocol/pubsub"}],"n":"message"}
-
a.example makes
{"a":{"from":"ann@a.example/1","id":"25","to":"pubsub.example","type":"set"},"c":[{"c":[{"a":{"node":"news"},"c":[{"a":{"jid":"ann@a.example/2","subscription":"subscribed"},"n":"subscription"},{"a":{"jid":"ann@a.example.org","subscription":"subscribed"},"n":"subscription"},{"a":{"jid":"ann@a.example/1","subscription":"subscribed"},"n":"subscription"}],"n":"subscriptions"}],"n":"pubsub","ns":"http://jabber.org/protocol/pubsub#owner"}],"n":"iq"}
{"a":{"from":"pubsub.example","id":"25","to":"ann@a.example/1","type":"result"},"n":"iq"}
> ann@a.example.org 1 {"a":{"from":"pubsub.example","id":"n-1","to":"ann@a.example.org"},"c":[{"c":[{"a":{"jid":"ann@a.example.org","node":"news","subscription":"subscribed"},"n":"subscription"}],"n":"pubsub","ns":"http://jabber.org/protocol/pubsub"}],"n":"message"}
> ann@a.example/1 8 {"a":{"from":"pubsub.example","id":"n-8","to":"ann@a.example/1"},"c":[{"c":[{"a":{"jid":"ann@a.example/1","node":"news","subscription":"subscribed"},"n":"subscription"}],"n":"pubsub","ns":"http://jabber.org/protocol/pubsub"}],"n":"message"}
> ann@a.example/2 9 {"a":{"from":"pubsub.example","id":"n-9","to":"ann@a.example/2"},"c":[{"c":[{"a":{"jid":"ann@a.example/2","node":"news","subscription":"subscribed"},"n":"subscription"}],"n":"pubsub","ns":"http://jabber.org/protocol/pubsub"}],"n":"message"}
-
a.example makes
{"a":{"from":"ann@a.example/1","id":"26","to":"pubsub.example","type":"set"},"c":[{"c":[{"a":{"node":"news"},"c":[{"a":{"id":"i5"},"c":[{"n":"entry","ns":"urn:t"}],"n":"item"}],"n":"publish"}],"n":"pubsub","ns":"http://jabber.org/protocol/pubsub"}],"n":"iq"}
{"a":{"from":"pubsub.example","id":"26","to":"ann@a.example/1","type":"result"},"c":[{"c":[{"a":{"node":"news"},"c":[{"a":{"id":"i5"},"n":"item"}],"n":"publish"}],"n":"pubsub","ns":"http://jabber.org/protocol/pubsub"}],"n":"iq"}
> ann@a.example.org 2 {"a":{"from":"pubsub.example","id":"n-2","to":"ann@a.example.org","type":"headline"},"c":[{"c":[{"a":{"node":"news"},"c":[{"a":{"id":"i5"},"c":[{"n":"entry","ns":"urn:t"}],"n":"item"}],"n":"items"}],"n":"event","ns":"http://jabber.org/protocol/pubsub#event"}],"n":"message"}
> ann@a.example/1 10 {"a":{"from":"pubsub.example","id":"n-10","to":"ann@a.example/1","type":"headline"},"c":[{"c":[{"a":{"node":"news"},"c":[{"a":{"id":"i5"},"c":[{"n":"entry","ns":"urn:t"}],"n":"item"}],"n":"items"}],"n":"event","ns":"http://jabber.org/protocol/pubsub#event"}],"n":"message"}
> ann@a.example/2 11 {"a":{"from":"pubsub.example","id":"n-11","to":"ann@a.example/2","type":"headline"},"c":[{"c":[{"a":{"node":"news"},"c":[{"a":{"id":"i5"},"c":[{"n":"entry","ns":"urn:t"}],"n":"item"}],"n":"items"}],"n":"event","ns":"http://jabber.org/protocol/pubsub#event"}],"n":"message"}"#;
