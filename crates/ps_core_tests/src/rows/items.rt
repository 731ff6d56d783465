// A node is made once, and what is published to it is retrieved by others too.
// Made by tests/lines/hosts.py from the cases in tests/lines/hosts/items.txt.
pub const ROWS: &str = r#"a.example makes
{"a":{"from":"ann@a.example/1","id":"1","to":"pubsub.example","type":"set"},"c":[{"c":[{"a":{"node":"news"},"n":"create"}],"n":"pubsub","ns":"http://jabber.org/protocol/pubsub"}],"n":"iq"}
{"a":{"from":"pubsub.example","id":"1","to":"ann@a.example/1","type":"result"},"n":"iq"}
-
a.example
{"a":{"from":"ann@a.example/1","id":"2","to":"pubsub.example","type":"set"},"c":[{"c":[{"a":{"node":"news"},"n":"create"}],"n":"pubsub","ns":"http://jabber.org/protocol/pubsub"}],"n":"iq"}
{"a":{"from":"pubsub.example","id":"2","to":"ann@a.example/1","type":"error"},"c":[{"a":{"type":"cancel"},"c":[{"n":"conflict","ns":"urn:ietf:params:xml:ns:xmpp-stanzas"}],"n":"error"}],"n":"iq"}
-
a.example makes
{"a":{"from":"ann@a.example/1","id":"3","to":"pubsub.example","type":"set"},"c":[{"c":[{"a":{"node":"news"},"c":[{"a":{"id":"i1"},"c":[{"c":["hi"],"n":"entry","ns":"urn:t"}],"n":"item"}],"n":"publish"}],"n":"pubsub","ns":"http://jabber.org/protocol/pubsub"}],"n":"iq"}
{"a":{"from":"pubsub.example","id":"3","to":"ann@a.example/1","type":"result"},"c":[{"c":[{"a":{"node":"news"},"c":[{"a":{"id":"i1"},"n":"item"}],"n":"publish"}],"n":"pubsub","ns":"http://jabber.org/protocol/pubsub"}],"n":"iq"}
-
a.example
{"a":{"from":"cid@a.example/1","id":"4","to":"pubsub.example","type":"get"},"c":[{"c":[{"a":{"node":"news"},"n":"items"}],"n":"pubsub","ns":"http://jabber.org/protocol/pubsub"}],"n":"iq"}
{"a":{"from":"pubsub.example","id":"4","to":"cid@a.example/1","type":"result"},"c":[{"c":[{"a":{"node":"news"},"c":[{"a":{"id":"i1"},"c":[{"c":["hi"],"n":"entry","ns":"urn:t"}],"n":"item"}],"n":"items"}],"n":"pubsub","ns":"http://jabber.org/protocol/pubsub"}],"n":"iq"}
-
a.example makes
{"a":{"from":"ann@a.example/1","id":"5","to":"pubsub.example","type":"set"},"c":[{"c":[{"a":{"node":"news"},"c":[{"a":{"id":"i1"},"n":"item"}],"n":"retract"}],"n":"pubsub","ns":"http://jabber.org/protocol/pubsub"}],"n":"iq"}
{"a":{"from":"pubsub.example","id":"5","to":"ann@a.example/1","type":"result"},"n":"iq"}
-
a.example makes
{"a":{"from":"ann@a.example/1","id":"6","to":"pubsub.example","type":"set"},"c":[{"c":[{"a":{"node":"news"},"c":[{"c":[{"n":"entry","ns":"urn:t"}],"n":"item"}],"n":"publish"}],"n":"pubsub","ns":"http://jabber.org/protocol/pubsub"}],"n":"iq"}
{"a":{"from":"pubsub.example","id":"6","to":"ann@a.example/1","type":"result"},"c":[{"c":[{"a":{"node":"news"},"c":[{"a":{"id":"auto-1-ann@a.example"},"n":"item"}],"n":"publish"}],"n":"pubsub","ns":"http://jabber.org/protocol/pubsub"}],"n":"iq"}
-
a.example makes
{"a":{"from":"ann@a.example/1","id":"7","to":"pubsub.example","type":"set"},"c":[{"c":[{"a":{"node":"news"},"c":[{"c":[{"n":"entry","ns":"urn:t"}],"n":"item"}],"n":"publish"}],"n":"pubsub","ns":"http://jabber.org/protocol/pubsub"}],"n":"iq"}
{"a":{"from":"pubsub.example","id":"7","to":"ann@a.example/1","type":"result"},"c":[{"c":[{"a":{"node":"news"},"c":[{"a":{"id":"auto-2-ann@a.example"},"n":"item"}],"n":"publish"}],"n":"pubsub","ns":"http://jabber.org/protocol/pubsub"}],"n":"iq"}
-
a.example
{"a":{"from":"ann@a.example/1","id":"8","to":"pubsub.example","type":"get"},"c":[{"c":[{"a":{"node":"news"},"n":"items"}],"n":"pubsub","ns":"http://jabber.org/protocol/pubsub"}],"n":"iq"}
{"a":{"from":"pubsub.example","id":"8","to":"ann@a.example/1","type":"result"},"c":[{"c":[{"a":{"node":"news"},"c":[{"a":{"id":"auto-1-ann@a.example"},"c":[{"n":"entry","ns":"urn:t"}],"n":"item"},{"a":{"id":"auto-2-ann@a.example"},"c":[{"n":"entry","ns":"urn:t"}],"n":"item"}],"n":"items"}],"n":"pubsub","ns":"http://jabber.org/protocol/pubsub"}],"n":"iq"}
-
a.example makes
{"a":{"from":"ann@a.example/1","id":"9","to":"pubsub.example","type":"set"},"c":[{"c":[{"a":{"node":"news"},"c":[{"a":{"id":"auto-1-ann@a.example"},"n":"item"}],"n":"retract"}],"n":"pubsub","ns":"http://jabber.org/protocol/pubsub"}],"n":"iq"}
{"a":{"from":"pubsub.example","id":"9","to":"ann@a.example/1","type":"result"},"n":"iq"}
-
a.example
{"a":{"from":"ann@a.example/1","id":"10","to":"pubsub.example","type":"get"},"c":[{"c":[{"a":{"node":"news"},"n":"items"}],"n":"pubsub","ns":"http://jabber.org/protocol/pubsub"}],"n":"iq"}
{"a":{"from":"pubsub.example","id":"10","to":"ann@a.example/1","type":"result"},"c":[{"c":[{"a":{"node":"news"},"c":[{"a":{"id":"auto-2-ann@a.example"},"c":[{"n":"entry","ns":"urn:t"}],"n":"item"}],"n":"items"}],"n":"pubsub","ns":"http://jabber.org/protocol/pubsub"}],"n":"iq"}
-
a.example makes
{"a":{"from":"ann@a.example/1","id":"11","to":"pubsub.example","type":"set"},"c":[{"c":[{"a":{"node":"news"},"n":"delete"}],"n":"pubsub","ns":"http://jabber.org/protocol/pubsub#owner"}],"n":"iq"}
{"a":{"from":"pubsub.example","id":"11","to":"ann@a.example/1","type":"result"},"n":"iq"}
-
a.example makes
{"a":{"from":"ann@a.example/1","id":"12","to":"pubsub.example","type":"set"},"c":[{"c":[{"a":{"node":"news"},"n":"create"}],"n":"pubsub","ns":"http://jabber.org/protocol/pubsub"}],"n":"iq"}
{"a":{"from":"pubsub.example","id":"12","to":"ann@a.example/1","type":"result"},"n":"iq"}
-
a.example makes
{"a":{"from":"ann@a.example/1","id":"13","to":"pubsub.example","type":"set"},"c":[{"c":[{"a":{"node":"news"},"c":[{"c":[{"n":"entry","ns":"urn:t"}],"n":"item"}],"n":"publish"}],"n":"pubsub","ns":"http://jabber.org/protocol/pubsub"}],"n":"iq"}
{"a":{"from":"pubsub.example","id":"13","to":"ann@a.example/1","type":"result"},"c":[{"c":[{"a":{"node":"news"},"c":[{"a":{"id":"auto-1-ann@a.example"},"n":"item"}],"n":"publish"}],"n":"pubsub","ns":"http://jabber.org/protocol/pubsub"}],"n":"iq"}
-
a.example
{"a":{"from":"ann@a.example/1","id":"14","to":"pubsub.example","type":"get"},"c":[{"c":[{"a":{"node":"news"},"n":"items"}],"n":"pubsub","ns":"http://jabber.org/protocol/pubsub"}],"n":"iq"}
{"a":{"from":"pubsub.example","id":"14","to":"ann@a.example/1","type":"result"},"c":[{"c":[{"a":{"node":"news"},"c":[{"a":{"id":"auto-1-ann@a.example"},"c":[{"n":"entry","ns":"urn:t"}],"n":"item"}],"n":"items"}],"n":"pubsub","ns":"http://jabber.org/protocol/pubsub"}],"n":"iq"}
-
a.example makes
{"a":{"from":"ann@a.example/1","id":"15","to":"pubsub.example","type":"set"},"c":[{"c":[{"a":{"node":"news"},"c":[{"a":{"id":"k1"},"c":[{"n":"entry","ns":"urn:t"}],"n":"item"}],"n":"publish"}],"n":"pubsub","ns":"http://jabber.org/protocol/pubsub"}],"n":"iq"}
{"a":{"from":"pubsub.example","id":"15","to":"ann@a.example/1","type":"result"},"c":[{"c":[{"a":{"node":"news"},"c":[{"a":{"id":"k1"},"n":"item"}],"n":"publish"}],"n":"pubsub","ns":"http://jabber.org/protocol/pubsub"}],"n":"iq"}
-
a.example makes
{"a":{"from":"ann@a.example/1","id":"16","to":"pubsub.example","type":"set"},"c":[{"c":[{"a":{"node":"news"},"c":[{"a":{"id":"k2"},"c":[{"n":"entry","ns":"urn:t"}],"n":"item"}],"n":"publish"}],"n":"pubsub","ns":"http://jabber.org/protocol/pubsub"}],"n":"iq"}
{"a":{"from":"pubsub.example","id":"16","to":"ann@a.example/1","type":"result"},"c":[{"c":[{"a":{"node":"news"},"c":[{"a":{"id":"k2"},"n":"item"}],"n":"publish"}],"n":"pubsub","ns":"http://jabber.org/protocol/pubsub"}],"n":"iq"}
-
a.example makes
{"a":{"from":"ann@a.example/1","id":"17","to":"pubsub.example","type":"set"},"c":[{"c":[{"a":{"node":"news"},"c":[{"a":{"id":"k3"},"c":[{"n":"entry","ns":"urn:t"}],"n":"item"}],"n":"publish"}],"n":"pubsub","ns":"http://jabber.org/protocol/pubsub"}],"n":"iq"}
{"a":{"from":"pubsub.example","id":"17","to":"ann@a.example/1","type":"result"},"c":[{"c":[{"a":{"node":"news"},"c":[{"a":{"id":"k3"},"n":"item"}],"n":"publish"}],"n":"pubsub","ns":"http://jabber.org/protocol/pubsub"}],"n":"iq"}
-
a.example makes
{"a":{"from":"ann@a.example/1","id":"18","to":"pubsub.example","type":"set"},"c":[{"c":[{"a":{"node":"news"},"c":[{"a":{"id":"k4"},"c":[{"n":"entry","ns":"urn:t"}],"n":"item"}],"n":"publish"}],"n":"pubsub","ns":"http://jabber.org/protocol/pubsub"}],"n":"iq"}
{"a":{"from":"pubsub.example","id":"18","to":"ann@a.example/1","type":"result"},"c":[{"c":[{"a":{"node":"news"},"c":[{"a":{"id":"k4"},"n":"item"}],"n":"publish"}],"n":"pubsub","ns":"http://jabber.org/protocol/pubsub"}],"n":"iq"}
-
a.example makes
{"a":{"from":"ann@a.example/1","id":"19","to":"pubsub.example","type":"set"},"c":[{"c":[{"a":{"node":"news"},"c":[{"a":{"id":"k5"},"c":[{"n":"entry","ns":"urn:t"}],"n":"item"}],"n":"publish"}],"n":"pubsub","ns":"http://jabber.org/protocol/pubsub"}],"n":"iq"}
{"a":{"from":"pubsub.example","id":"19","to":"ann@a.example/1","type":"result"},"c":[{"c":[{"a":{"node":"news"},"c":[{"a":{"id":"k5"},"n":"item"}],"n":"publish"}],"n":"pubsub","ns":"http://jabber.org/protocol/pubsub"}],"n":"iq"}
-
a.example makes
{"a":{"from":"ann@a.example/1","id":"20","to":"pubsub.example","type":"set"},"c":[{"c":[{"a":{"node":"news"},"c":[{"a":{"id":"k6"},"c":[{"n":"entry","ns":"urn:t"}],"n":"item"}],"n":"publish"}],"n":"pubsub","ns":"http://jabber.org/protocol/pubsub"}],"n":"iq"}
{"a":{"from":"pubsub.example","id":"20","to":"ann@a.example/1","type":"result"},"c":[{"c":[{"a":{"node":"news"},"c":[{"a":{"id":"k6"},"n":"item"}],"n":"publish"}],"n":"pubsub","ns":"http://jabber.org/protocol/pubsub"}],"n":"iq"}
-
a.example makes
{"a":{"from":"ann@a.example/1","id":"21","to":"pubsub.example","type":"set"},"c":[{"c":[{"a":{"node":"news"},"c":[{"a":{"id":"k7"},"c":[{"n":"entry","ns":"urn:t"}],"n":"item"}],"n":"publish"}],"n":"pubsub","ns":"http://jabber.org/protocol/pubsub"}],"n":"iq"}
{"a":{"from":"pubsub.example","id":"21","to":"ann@a.example/1","type":"result"},"c":[{"c":[{"a":{"node":"news"},"c":[{"a":{"id":"k7"},"n":"item"}],"n":"publish"}],"n":"pubsub","ns":"http://jabber.org/protocol/pubsub"}],"n":"iq"}
-
a.example makes
{"a":{"from":"ann@a.example/1","id":"22","to":"pubsub.example","type":"set"},"c":[{"c":[{"a":{"node":"news"},"c":[{"a":{"id":"k8"},"c":[{"n":"entry","ns":"urn:t"}],"n":"item"}],"n":"publish"}],"n":"pubsub","ns":"http://jabber.org/protocol/pubsub"}],"n":"iq"}
{"a":{"from":"pubsub.example","id":"22","to":"ann@a.example/1","type":"result"},"c":[{"c":[{"a":{"node":"news"},"c":[{"a":{"id":"k8"},"n":"item"}],"n":"publish"}],"n":"pubsub","ns":"http://jabber.org/protocol/pubsub"}],"n":"iq"}
-
a.example makes
{"a":{"from":"ann@a.example/1","id":"23","to":"pubsub.example","type":"set"},"c":[{"c":[{"a":{"node":"news"},"c":[{"a":{"id":"k9"},"c":[{"n":"entry","ns":"urn:t"}],"n":"item"}],"n":"publish"}],"n":"pubsub","ns":"http://jabber.org/protocol/pubsub"}],"n":"iq"}
{"a":{"from":"pubsub.example","id":"23","to":"ann@a.example/1","type":"result"},"c":[{"c":[{"a":{"node":"news"},"c":[{"a":{"id":"k9"},"n":"item"}],"n":"publish"}],"n":"pubsub","ns":"http://jabber.org/protocol/pubsub"}],"n":"iq"}
-
a.example makes
{"a":{"from":"ann@a.example/1","id":"24","to":"pubsub.example","type":"set"},"c":[{"c":[{"a":{"node":"news"},"c":[{"a":{"id":"k10"},"c":[{"n":"entry","ns":"urn:t"}],"n":"item"}],"n":"publish"}],"n":"pubsub","ns":"http://jabber.org/protocol/pubsub"}],"n":"iq"}
{"a":{"from":"pubsub.example","id":"24","to":"ann@a.example/1","type":"result"},"c":[{"c":[{"a":{"node":"news"},"c":[{"a":{"id":"k10"},"n":"item"}],"n":"publish"}],"n":"pubsub","ns":"http://jabber.org/protocol/pubsub"}],"n":"iq"}
-
b.example
{"a":{"from":"bob@b.example/1","id":"25","to":"pubsub.example","type":"get"},"c":[{"c":[{"a":{"node":"news"},"n":"items"}],"n":"pubsub","ns":"http://jabber.org/protocol/pubsub"}],"n":"iq"}
{"a":{"from":"pubsub.example","id":"25","to":"bob@b.example/1","type":"result"},"c":[{"c":[{"a":{"node":"news"},"c":[{"a":{"id":"k1"},"c":[{"n":"entry","ns":"urn:t"}],"n":"item"},{"a":{"id":"k2"},"c":[{"n":"entry","ns":"urn:t"}],"n":"item"},{"a":{"id":"k3"},"c":[{"n":"entry","ns":"urn:t"}],"n":"item"},{"a":{"id":"k4"},"c":[{"n":"entry","ns":"urn:t"}],"n":"item"},{"a":{"id":"k5"},"c":[{"n":"entry","ns":"urn:t"}],"n":"item"},{"a":{"id":"k6"},"c":[{"n":"entry","ns":"urn:t"}],"n":"item"},{"a":{"id":"k7"},"c":[{"n":"entry","ns":"urn:t"}],"n":"item"},{"a":{"id":"k8"},"c":[{"n":"entry","ns":"urn:t"}],"n":"item"},{"a":{"id":"k9"},"c":[{"n":"entry","ns":"urn:t"}],"n":"item"},{"a":{"id":"k10"},"c":[{"n":"entry","ns":"urn:t"}],"n":"item"}],"n":"items"}],"n":"pubsub","ns":"http://jabber.org/protocol/pubsub"}],"n":"iq"}"#;
