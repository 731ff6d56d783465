// Who is told as a resource that wants the node of an account (XEP-0163 §4; XEP-0115 §6.2).
// Made by tests/lines/hosts.py from the cases in tests/lines/hosts/interest.txt.
pub const ROWS: &str = r#"a.example makes
{"a":{"from":"ann@a.example/1","id":"1","type":"set"},"c":[{"c":[{"a":{"node":"urn:t"},"c":[{"a":{"id":"m"},"c":[{"n":"entry","ns":"urn:t"}],"n":"item"}],"n":"publish"}],"n":"pubsub","ns":"http://jabber.org/protocol/pubsub"}],"n":"iq"}
{"a":{"from":"ann@a.example","id":"1","to":"ann@a.example/1","type":"result"},"c":[{"c":[{"a":{"node":"urn:t"},"c":[{"a":{"id":"m"},"n":"item"}],"n":"publish"}],"n":"pubsub","ns":"http://jabber.org/protocol/pubsub"}],"n":"iq"}
-
a.example makes
{"a":{"from":"ann@a.example/1","id":"2","to":"pubsub.example","type":"set"},"c":[{"c":[{"a":{"jid":"bob@b.example","subscription":"to"},"n":"item"}],"n":"query","ns":"jabber:iq:roster"}],"n":"iq"}
{"a":{"from":"pubsub.example","id":"2","to":"ann@a.example/1","type":"result"},"n":"iq"}
-
b.example
{"a":{"from":"bob@b.example/1","id":"3","to":"ann@a.example","type":"get"},"c":[{"c":[{"a":{"node":"urn:t"},"n":"items"}],"n":"pubsub","ns":"http://jabber.org/protocol/pubsub"}],"n":"iq"}
{"a":{"from":"ann@a.example","id":"3","to":"bob@b.example/1","type":"error"},"c":[{"a":{"type":"auth"},"c":[{"n":"not-authorized","ns":"urn:ietf:params:xml:ns:xmpp-stanzas"},{"n":"presence-subscription-required","ns":"http://jabber.org/protocol/pubsub#errors"}],"n":"error"}],"n":"iq"}
-
a.example makes
{"a":{"from":"ann@a.example/1","id":"4","to":"pubsub.example","type":"set"},"c":[{"c":[{"a":{"jid":"bob@b.example","subscription":"from"},"n":"item"}],"n":"query","ns":"jabber:iq:roster"}],"n":"iq"}
{"a":{"from":"pubsub.example","id":"4","to":"ann@a.example/1","type":"result"},"n":"iq"}
-
b.example
{"a":{"from":"bob@b.example/1","id":"5","to":"ann@a.example","type":"get"},"c":[{"c":[{"a":{"node":"urn:t"},"n":"items"}],"n":"pubsub","ns":"http://jabber.org/protocol/pubsub"}],"n":"iq"}
{"a":{"from":"ann@a.example","id":"5","to":"bob@b.example/1","type":"result"},"c":[{"c":[{"a":{"node":"urn:t"},"c":[{"a":{"id":"m"},"c":[{"n":"entry","ns":"urn:t"}],"n":"item"}],"n":"items"}],"n":"pubsub","ns":"http://jabber.org/protocol/pubsub"}],"n":"iq"}
-
b.example makes
{"a":{"from":"bob@b.example/1","id":"6","to":"pubsub.example"},"c":[{"a":{"hash":"sha-1","node":"http://c.example","ver":"AAAA"},"n":"c","ns":"http://jabber.org/protocol/caps"}],"n":"presence"}

> bob@b.example/1 1 {"a":{"from":"pubsub.example","id":"n-1","to":"bob@b.example/1","type":"get"},"c":[{"a":{"node":"http://c.example#AAAA"},"n":"query","ns":"http://jabber.org/protocol/disco#info"}],"n":"iq"}
-
b.example makes
{"a":{"from":"bob@b.example/1","id":"7","to":"pubsub.example","type":"result"},"c":[{"a":{"node":"http://c.example#AAAA"},"c":[{"a":{"var":"urn:t+notify"},"n":"feature"}],"n":"query","ns":"http://jabber.org/protocol/disco#info"}],"n":"iq"}

> bob@b.example/1 2 {"a":{"from":"ann@a.example","id":"n-2","to":"bob@b.example/1","type":"headline"},"c":[{"c":[{"a":{"node":"urn:t"},"c":[{"a":{"id":"m"},"c":[{"n":"entry","ns":"urn:t"}],"n":"item"}],"n":"items"}],"n":"event","ns":"http://jabber.org/protocol/pubsub#event"}],"n":"message"}
-
a.example makes
{"a":{"from":"ann@a.example/1","id":"8","to":"pubsub.example","type":"set"},"c":[{"c":[{"a":{"jid":"bob@b.example","subscription":"to"},"n":"item"}],"n":"query","ns":"jabber:iq:roster"}],"n":"iq"}
{"a":{"from":"pubsub.example","id":"8","to":"ann@a.example/1","type":"result"},"n":"iq"}
-
a.example makes
{"a":{"from":"ann@a.example/1","id":"9","type":"set"},"c":[{"c":[{"a":{"node":"urn:t"},"c":[{"a":{"id":"n"},"c":[{"n":"entry","ns":"urn:t"}],"n":"item"}],"n":"publish"}],"n":"pubsub","ns":"http://jabber.org/protocol/pubsub"}],"n":"iq"}
{"a":{"from":"ann@a.example","id":"9","to":"ann@a.example/1","type":"result"},"c":[{"c":[{"a":{"node":"urn:t"},"c":[{"a":{"id":"n"},"n":"item"}],"n":"publish"}],"n":"pubsub","ns":"http://jabber.org/protocol/pubsub"}],"n":"iq"}
-
a.example makes
{"a":{"from":"ann@a.example/1","id":"10","to":"pubsub.example","type":"set"},"c":[{"c":[{"a":{"jid":"bob@b.example","subscription":"from"},"n":"item"}],"n":"query","ns":"jabber:iq:roster"}],"n":"iq"}
{"a":{"from":"pubsub.example","id":"10","to":"ann@a.example/1","type":"result"},"n":"iq"}
-
a.example makes
{"a":{"from":"ann@a.example/1","id":"11","type":"set"},"c":[{"c":[{"a":{"node":"urn:t"},"c":[{"a":{"id":"o"},"c":[{"n":"entry","ns":"urn:t"}],"n":"item"}],"n":"publish"}],"n":"pubsub","ns":"http://jabber.org/protocol/pubsub"}],"n":"iq"}
{"a":{"from":"ann@a.example","id":"11","to":"ann@a.example/1","type":"result"},"c":[{"c":[{"a":{"node":"urn:t"},"c":[{"a":{"id":"o"},"n":"item"}],"n":"publish"}],"n":"pubsub","ns":"http://jabber.org/protocol/pubsub"}],"n":"iq"}
> bob@b.example/1 3 {"a":{"from":"ann@a.example","id":"n-3","to":"bob@b.example/1","type":"headline"},"c":[{"c":[{"a":{"node":"urn:t"},"c":[{"a":{"id":"o"},"c":[{"n":"entry","ns":"urn:t"}],"n":"item"}],"n":"items"}],"n":"event","ns":"http://jabber.org/protocol/pubsub#event"}],"n":"message"}
-
a.example makes
{"a":{"from":"ann@a.example/1","id":"12","type":"set"},"c":[{"c":[{"a":{"node":"urn:t"},"c":[{"a":{"type":"submit"},"c":[{"a":{"var":"FORM_TYPE"},"c":[{"c":["http://jabber.org/protocol/pubsub#node_config"],"n":"value"}],"n":"field"},{"a":{"var":"pubsub#access_model"},"c":[{"c":["open"],"n":"value"}],"n":"field"}],"n":"x","ns":"jabber:x:data"}],"n":"configure"}],"n":"pubsub","ns":"http://jabber.org/protocol/pubsub#owner"}],"n":"iq"}
{"a":{"from":"ann@a.example","id":"12","to":"ann@a.example/1","type":"result"},"n":"iq"}
-
a.example makes
{"a":{"from":"ann@a.example/1","id":"13","to":"pubsub.example","type":"set"},"c":[{"c":[{"a":{"jid":"bob@b.example","subscription":"to"},"n":"item"}],"n":"query","ns":"jabber:iq:roster"}],"n":"iq"}
{"a":{"from":"pubsub.example","id":"13","to":"ann@a.example/1","type":"result"},"n":"iq"}
-
a.example makes
{"a":{"from":"ann@a.example/1","id":"14","type":"set"},"c":[{"c":[{"a":{"node":"urn:t"},"c":[{"a":{"id":"n"},"c":[{"n":"entry","ns":"urn:t"}],"n":"item"}],"n":"publish"}],"n":"pubsub","ns":"http://jabber.org/protocol/pubsub"}],"n":"iq"}
{"a":{"from":"ann@a.example","id":"14","to":"ann@a.example/1","type":"result"},"c":[{"c":[{"a":{"node":"urn:t"},"c":[{"a":{"id":"n"},"n":"item"}],"n":"publish"}],"n":"pubsub","ns":"http://jabber.org/protocol/pubsub"}],"n":"iq"}
-
a.example makes
{"a":{"from":"ann@a.example/1","id":"15","to":"pubsub.example","type":"set"},"c":[{"c":[{"a":{"jid":"bob@b.example","subscription":"both"},"n":"item"}],"n":"query","ns":"jabber:iq:roster"}],"n":"iq"}
{"a":{"from":"pubsub.example","id":"15","to":"ann@a.example/1","type":"result"},"n":"iq"}
-
a.example makes
{"a":{"from":"ann@a.example/1","id":"16","type":"set"},"c":[{"c":[{"a":{"node":"urn:t"},"c":[{"a":{"type":"submit"},"c":[{"a":{"var":"FORM_TYPE"},"c":[{"c":["http://jabber.org/protocol/pubsub#node_config"],"n":"value"}],"n":"field"},{"a":{"var":"pubsub#access_model"},"c":[{"c":["whitelist"],"n":"value"}],"n":"field"}],"n":"x","ns":"jabber:x:data"}],"n":"configure"}],"n":"pubsub","ns":"http://jabber.org/protocol/pubsub#owner"}],"n":"iq"}
{"a":{"from":"ann@a.example","id":"16","to":"ann@a.example/1","type":"result"},"n":"iq"}
-
a.example makes
{"a":{"from":"ann@a.example/1","id":"17","type":"set"},"c":[{"c":[{"a":{"node":"urn:t"},"c":[{"a":{"id":"o"},"c":[{"n":"entry","ns":"urn:t"}],"n":"item"}],"n":"publish"}],"n":"pubsub","ns":"http://jabber.org/protocol/pubsub"}],"n":"iq"}
{"a":{"from":"ann@a.example","id":"17","to":"ann@a.example/1","type":"result"},"c":[{"c":[{"a":{"node":"urn:t"},"c":[{"a":{"id":"o"},"n":"item"}],"n":"publish"}],"n":"pubsub","ns":"http://jabber.org/protocol/pubsub"}],"n":"iq"}
-
a.example makes
{"a":{"from":"ann@a.example/1","id":"18","type":"set"},"c":[{"c":[{"a":{"node":"urn:t"},"c":[{"a":{"type":"submit"},"c":[{"a":{"var":"FORM_TYPE"},"c":[{"c":["http://jabber.org/protocol/pubsub#node_config"],"n":"value"}],"n":"field"},{"a":{"var":"pubsub#access_model"},"c":[{"c":["presence"],"n":"value"}],"n":"field"}],"n":"x","ns":"jabber:x:data"}],"n":"configure"}],"n":"pubsub","ns":"http://jabber.org/protocol/pubsub#owner"}],"n":"iq"}
{"a":{"from":"ann@a.example","id":"18","to":"ann@a.example/1","type":"result"},"n":"iq"}
-
a.example makes
{"a":{"from":"ann@a.example/1","id":"19","type":"set"},"c":[{"c":[{"a":{"node":"urn:u"},"c":[{"a":{"id":"m"},"c":[{"n":"entry","ns":"urn:t"}],"n":"item"}],"n":"publish"}],"n":"pubsub","ns":"http://jabber.org/protocol/pubsub"}],"n":"iq"}
{"a":{"from":"ann@a.example","id":"19","to":"ann@a.example/1","type":"result"},"c":[{"c":[{"a":{"node":"urn:u"},"c":[{"a":{"id":"m"},"n":"item"}],"n":"publish"}],"n":"pubsub","ns":"http://jabber.org/protocol/pubsub"}],"n":"iq"}
-
b.example makes
{"a":{"from":"cid@b.example/1","id":"20","type":"set"},"c":[{"c":[{"a":{"node":"urn:t"},"c":[{"a":{"id":"m"},"c":[{"n":"entry","ns":"urn:t"}],"n":"item"}],"n":"publish"},{"c":[{"a":{"type":"submit"},"c":[{"a":{"var":"FORM_TYPE"},"c":[{"c":["http://jabber.org/protocol/pubsub#publish-options"],"n":"value"}],"n":"field"},{"a":{"var":"pubsub#access_model"},"c":[{"c":["open"],"n":"value"}],"n":"field"}],"n":"x","ns":"jabber:x:data"}],"n":"publish-options"}],"n":"pubsub","ns":"http://jabber.org/protocol/pubsub"}],"n":"iq"}
{"a":{"from":"cid@b.example","id":"20","to":"cid@b.example/1","type":"result"},"c":[{"c":[{"a":{"node":"urn:t"},"c":[{"a":{"id":"m"},"n":"item"}],"n":"publish"}],"n":"pubsub","ns":"http://jabber.org/protocol/pubsub"}],"n":"iq"}
-
a.example makes
{"a":{"from":"ann@a.example/1","id":"21","to":"pubsub.example","type":"set"},"c":[{"c":[{"a":{"node":"urn:t"},"n":"create"}],"n":"pubsub","ns":"http://jabber.org/protocol/pubsub"}],"n":"iq"}
{"a":{"from":"pubsub.example","id":"21","to":"ann@a.example/1","type":"result"},"n":"iq"}
-
a.example makes
{"a":{"from":"ann@a.example/1","id":"22","to":"pubsub.example","type":"set"},"c":[{"c":[{"a":{"node":"urn:t"},"c":[{"a":{"id":"m"},"c":[{"n":"entry","ns":"urn:t"}],"n":"item"}],"n":"publish"}],"n":"pubsub","ns":"http://jabber.org/protocol/pubsub"}],"n":"iq"}
{"a":{"from":"pubsub.example","id":"22","to":"ann@a.example/1","type":"result"},"c":[{"c":[{"a":{"node":"urn:t"},"c":[{"a":{"id":"m"},"n":"item"}],"n":"publish"}],"n":"pubsub","ns":"http://jabber.org/protocol/pubsub"}],"n":"iq"}
-
a.example makes
{"a":{"from":"ann@a.example/1","id":"23","type":"set"},"c":[{"c":[{"a":{"node":"urn:t","notify":"true"},"c":[{"a":{"id":"o"},"n":"item"}],"n":"retract"}],"n":"pubsub","ns":"http://jabber.org/protocol/pubsub"}],"n":"iq"}
{"a":{"from":"ann@a.example","id":"23","to":"ann@a.example/1","type":"result"},"n":"iq"}
> bob@b.example/1 4 {"a":{"from":"ann@a.example","id":"n-4","to":"bob@b.example/1","type":"headline"},"c":[{"c":[{"a":{"node":"urn:t"},"c":[{"a":{"id":"o"},"n":"retract"}],"n":"items"}],"n":"event","ns":"http://jabber.org/protocol/pubsub#event"}],"n":"message"}
-
a.example makes
{"a":{"from":"ann@a.example/1","id":"24","type":"set"},"c":[{"c":[{"a":{"node":"urn:t"},"n":"purge"}],"n":"pubsub","ns":"http://jabber.org/protocol/pubsub#owner"}],"n":"iq"}
{"a":{"from":"ann@a.example","id":"24","to":"ann@a.example/1","type":"result"},"n":"iq"}
> bob@b.example/1 5 {"a":{"from":"ann@a.example","id":"n-5","to":"bob@b.example/1","type":"headline"},"c":[{"c":[{"a":{"node":"urn:t"},"n":"purge"}],"n":"event","ns":"http://jabber.org/protocol/pubsub#event"}],"n":"message"}
-
a.example makes
{"a":{"from":"ann@a.example/1","id":"25","type":"set"},"c":[{"c":[{"a":{"node":"urn:t"},"c":[{"a":{"type":"submit"},"c":[{"a":{"var":"FORM_TYPE"},"c":[{"c":["http://jabber.org/protocol/pubsub#node_config"],"n":"value"}],"n":"field"},{"a":{"var":"pubsub#notify_config"},"c":[{"c":["1"],"n":"value"}],"n":"field"},{"a":{"var":"pubsub#notify_delete"},"c":[{"c":["1"],"n":"value"}],"n":"field"},{"a":{"var":"pubsub#notification_type"},"c":[{"c":["normal"],"n":"value"}],"n":"field"}],"n":"x","ns":"jabber:x:data"}],"n":"configure"}],"n":"pubsub","ns":"http://jabber.org/protocol/pubsub#owner"}],"n":"iq"}
{"a":{"from":"ann@a.example","id":"25","to":"ann@a.example/1","type":"result"},"n":"iq"}
> bob@b.example/1 6 {"a":{"from":"ann@a.example","id":"n-6","to":"bob@b.example/1"},"c":[{"c":[{"a":{"node":"urn:t"},"n":"configuration"}],"n":"event","ns":"http://jabber.org/protocol/pubsub#event"}],"n":"message"}
-
a.example makes
{"a":{"from":"ann@a.example/1","id":"26","type":"set"},"c":[{"c":[{"a":{"node":"urn:t"},"n":"delete"}],"n":"pubsub","ns":"http://jabber.org/protocol/pubsub#owner"}],"n":"iq"}
{"a":{"from":"ann@a.example","id":"26","to":"ann@a.example/1","type":"result"},"n":"iq"}
> bob@b.example/1 7 {"a":{"from":"ann@a.example","id":"n-7","to":"bob@b.example/1"},"c":[{"c":[{"a":{"node":"urn:t"},"n":"delete"}],"n":"event","ns":"http://jabber.org/protocol/pubsub#event"}],"n":"message"}
-
a.example makes
{"a":{"from":"ann@a.example/1","id":"27","type":"set"},"c":[{"c":[{"a":{"node":"urn:c"},"n":"create"},{"c":[{"a":{"type":"submit"},"c":[{"a":{"var":"FORM_TYPE"},"c":[{"c":["http://jabber.org/protocol/pubsub#node_config"],"n":"value"}],"n":"field"},{"a":{"var":"pubsub#node_type"},"c":[{"c":["collection"],"n":"value"}],"n":"field"},{"a":{"var":"pubsub#access_model"},"c":[{"c":["open"],"n":"value"}],"n":"field"}],"n":"x","ns":"jabber:x:data"}],"n":"configure"}],"n":"pubsub","ns":"http://jabber.org/protocol/pubsub"}],"n":"iq"}
{"a":{"from":"ann@a.example","id":"27","to":"ann@a.example/1","type":"result"},"n":"iq"}
-
b.example makes
{"a":{"from":"bob@b.example/1","id":"28","to":"ann@a.example","type":"set"},"c":[{"c":[{"a":{"jid":"bob@b.example","node":"urn:c"},"n":"subscribe"},{"c":[{"a":{"type":"submit"},"c":[{"a":{"var":"FORM_TYPE"},"c":[{"c":["http://jabber.org/protocol/pubsub#subscribe_options"],"n":"value"}],"n":"field"},{"a":{"var":"pubsub#subscription_type"},"c":[{"c":["nodes"],"n":"value"}],"n":"field"}],"n":"x","ns":"jabber:x:data"}],"n":"options"}],"n":"pubsub","ns":"http://jabber.org/protocol/pubsub"}],"n":"iq"}
{"a":{"from":"ann@a.example","id":"28","to":"bob@b.example/1","type":"result"},"c":[{"c":[{"a":{"jid":"bob@b.example","node":"urn:c","subscription":"subscribed"},"n":"subscription"}],"n":"pubsub","ns":"http://jabber.org/protocol/pubsub"}],"n":"iq"}
-
a.example at 1000000000 makes
{"a":{"from":"ann@a.example/1","id":"29","type":"set"},"c":[{"c":[{"a":{"node":"urn:t"},"c":[{"a":{"id":"m"},"c":[{"n":"entry","ns":"urn:t"}],"n":"item"}],"n":"publish"},{"c":[{"a":{"type":"submit"},"c":[{"a":{"var":"FORM_TYPE"},"c":[{"c":["http://jabber.org/protocol/pubsub#publish-options"],"n":"value"}],"n":"field"},{"a":{"var":"pubsub#collection"},"c":[{"c":["urn:c"],"n":"value"}],"n":"field"},{"a":{"var":"pubsub#access_model"},"c":[{"c":["presence"],"n":"value"}],"n":"field"}],"n":"x","ns":"jabber:x:data"}],"n":"publish-options"}],"n":"pubsub","ns":"http://jabber.org/protocol/pubsub"}],"n":"iq"}
{"a":{"from":"ann@a.example","id":"29","to":"ann@a.example/1","type":"result"},"c":[{"c":[{"a":{"node":"urn:t"},"c":[{"a":{"id":"m"},"n":"item"}],"n":"publish"}],"n":"pubsub","ns":"http://jabber.org/protocol/pubsub"}],"n":"iq"}
> bob@b.example 8 {"a":{"from":"ann@a.example","id":"n-8","to":"bob@b.example","type":"headline"},"c":[{"c":[{"a":{"node":"urn:c"},"c":[{"a":{"node":"urn:t"},"n":"associate"}],"n":"collection"}],"n":"event","ns":"http://jabber.org/protocol/pubsub#event"}],"n":"message"}
> bob@b.example/1 9 {"a":{"from":"ann@a.example","id":"n-9","to":"bob@b.example/1","type":"headline"},"c":[{"c":[{"a":{"node":"urn:t"},"c":[{"a":{"id":"m"},"c":[{"n":"entry","ns":"urn:t"}],"n":"item"}],"n":"items"}],"n":"event","ns":"http://jabber.org/protocol/pubsub#event"}],"n":"message"}
-
b.example makes
{"a":{"from":"bob@b.example/1","id":"30","to":"ann@a.example","type":"set"},"c":[{"c":[{"a":{"jid":"bob@b.example","node":"urn:c"},"c":[{"a":{"type":"submit"},"c":[{"a":{"var":"FORM_TYPE"},"c":[{"c":["http://jabber.org/protocol/pubsub#subscribe_options"],"n":"value"}],"n":"field"},{"a":{"var":"pubsub#subscription_type"},"c":[{"c":["items"],"n":"value"}],"n":"field"}],"n":"x","ns":"jabber:x:data"}],"n":"options"}],"n":"pubsub","ns":"http://jabber.org/protocol/pubsub"}],"n":"iq"}
{"a":{"from":"ann@a.example","id":"30","to":"bob@b.example/1","type":"result"},"n":"iq"}
-
a.example makes
{"a":{"from":"ann@a.example/1","id":"31","type":"set"},"c":[{"c":[{"a":{"node":"urn:t"},"c":[{"a":{"id":"n"},"c":[{"n":"entry","ns":"urn:t"}],"n":"item"}],"n":"publish"}],"n":"pubsub","ns":"http://jabber.org/protocol/pubsub"}],"n":"iq"}
{"a":{"from":"ann@a.example","id":"31","to":"ann@a.example/1","type":"result"},"c":[{"c":[{"a":{"node":"urn:t"},"c":[{"a":{"id":"n"},"n":"item"}],"n":"publish"}],"n":"pubsub","ns":"http://jabber.org/protocol/pubsub"}],"n":"iq"}
> bob@b.example 10 {"a":{"from":"ann@a.example","id":"n-10","to":"bob@b.example","type":"headline"},"c":[{"c":[{"a":{"node":"urn:t"},"c":[{"a":{"id":"n"},"c":[{"n":"entry","ns":"urn:t"}],"n":"item"}],"n":"items"}],"n":"event","ns":"http://jabber.org/protocol/pubsub#event"},{"c":[{"a":{"name":"Collection"},"c":["urn:c"],"n":"header"}],"n":"headers","ns":"http://jabber.org/protocol/shim"}],"n":"message"}
> bob@b.example/1 11 {"a":{"from":"ann@a.example","id":"n-11","to":"bob@b.example/1","type":"headline"},"c":[{"c":[{"a":{"node":"urn:t"},"c":[{"a":{"id":"n"},"c":[{"n":"entry","ns":"urn:t"}],"n":"item"}],"n":"items"}],"n":"event","ns":"http://jabber.org/protocol/pubsub#event"}],"n":"message"}
-
b.example makes
{"a":{"from":"bob@b.example/1","id":"32","to":"ann@a.example","type":"set"},"c":[{"c":[{"a":{"jid":"bob@b.example","node":"urn:t"},"n":"subscribe"}],"n":"pubsub","ns":"http://jabber.org/protocol/pubsub"}],"n":"iq"}
{"a":{"from":"ann@a.example","id":"32","to":"bob@b.example/1","type":"result"},"c":[{"c":[{"a":{"jid":"bob@b.example","node":"urn:t","subscription":"subscribed"},"n":"subscription"}],"n":"pubsub","ns":"http://jabber.org/protocol/pubsub"}],"n":"iq"}
> bob@b.example 12 {"a":{"from":"ann@a.example","id":"n-12","to":"bob@b.example","type":"headline"},"c":[{"c":[{"a":{"node":"urn:t"},"c":[{"a":{"id":"n"},"c":[{"n":"entry","ns":"urn:t"}],"n":"item"}],"n":"items"}],"n":"event","ns":"http://jabber.org/protocol/pubsub#event"}],"n":"message"}
-
a.example makes
{"a":{"from":"ann@a.example/1","id":"33","type":"set"},"c":[{"c":[{"a":{"node":"urn:t"},"c":[{"a":{"id":"o"},"c":[{"n":"entry","ns":"urn:t"}],"n":"item"}],"n":"publish"}],"n":"pubsub","ns":"http://jabber.org/protocol/pubsub"}],"n":"iq"}
{"a":{"from":"ann@a.example","id":"33","to":"ann@a.example/1","type":"result"},"c":[{"c":[{"a":{"node":"urn:t"},"c":[{"a":{"id":"o"},"n":"item"}],"n":"publish"}],"n":"pubsub","ns":"http://jabber.org/protocol/pubsub"}],"n":"iq"}
> bob@b.example 13 {"a":{"from":"ann@a.example","id":"n-13","to":"bob@b.example","type":"headline"},"c":[{"c":[{"a":{"node":"urn:t"},"c":[{"a":{"id":"o"},"c":[{"n":"entry","ns":"urn:t"}],"n":"item"}],"n":"items"}],"n":"event","ns":"http://jabber.org/protocol/pubsub#event"}],"n":"message"}
-
b.example makes
{"a":{"from":"bob@b.example/1","id":"34","to":"ann@a.example","type":"set"},"c":[{"c":[{"a":{"jid":"bob@b.example","node":"urn:t"},"n":"unsubscribe"}],"n":"pubsub","ns":"http://jabber.org/protocol/pubsub"}],"n":"iq"}
{"a":{"from":"ann@a.example","id":"34","to":"bob@b.example/1","type":"result"},"n":"iq"}
-
b.example makes
{"a":{"from":"bob@b.example/1","id":"35","to":"ann@a.example","type":"set"},"c":[{"c":[{"a":{"jid":"bob@b.example","node":"urn:c"},"n":"unsubscribe"}],"n":"pubsub","ns":"http://jabber.org/protocol/pubsub"}],"n":"iq"}
{"a":{"from":"ann@a.example","id":"35","to":"bob@b.example/1","type":"result"},"n":"iq"}
-
b.example makes
{"a":{"from":"bob@b.example/1","id":"36","to":"ann@a.example","type":"set"},"c":[{"c":[{"a":{"jid":"bob@b.example/1","node":"urn:t"},"n":"subscribe"}],"n":"pubsub","ns":"http://jabber.org/protocol/pubsub"}],"n":"iq"}
{"a":{"from":"ann@a.example","id":"36","to":"bob@b.example/1","type":"result"},"c":[{"c":[{"a":{"jid":"bob@b.example/1","node":"urn:t","subscription":"subscribed"},"n":"subscription"}],"n":"pubsub","ns":"http://jabber.org/protocol/pubsub"}],"n":"iq"}
> bob@b.example/1 14 {"a":{"from":"ann@a.example","id":"n-14","to":"bob@b.example/1","type":"headline"},"c":[{"c":[{"a":{"node":"urn:t"},"c":[{"a":{"id":"o"},"c":[{"n":"entry","ns":"urn:t"}],"n":"item"}],"n":"items"}],"n":"event","ns":"http://jabber.org/protocol/pubsub#event"}],"n":"message"}
-
a.example makes
{"a":{"from":"ann@a.example/1","id":"37","type":"set"},"c":[{"c":[{"a":{"node":"urn:t"},"c":[{"a":{"id":"p"},"c":[{"n":"entry","ns":"urn:t"}],"n":"item"}],"n":"publish"}],"n":"pubsub","ns":"http://jabber.org/protocol/pubsub"}],"n":"iq"}
{"a":{"from":"ann@a.example","id":"37","to":"ann@a.example/1","type":"result"},"c":[{"c":[{"a":{"node":"urn:t"},"c":[{"a":{"id":"p"},"n":"item"}],"n":"publish"}],"n":"pubsub","ns":"http://jabber.org/protocol/pubsub"}],"n":"iq"}
> bob@b.example/1 15 {"a":{"from":"ann@a.example","id":"n-15","to":"bob@b.example/1","type":"headline"},"c":[{"c":[{"a":{"node":"urn:t"},"c":[{"a":{"id":"p"},"c":[{"n":"entry","ns":"urn:t"}],"n":"item"}],"n":"items"}],"n":"event","ns":"http://jabber.org/protocol/pubsub#event"}],"n":"message"}
-
gone b.example


-
a.example makes
{"a":{"from":"ann@a.example/1","id":"39","type":"set"},"c":[{"c":[{"a":{"node":"urn:t"},"c":[{"a":{"id":"q"},"c":[{"n":"entry","ns":"urn:t"}],"n":"item"}],"n":"publish"}],"n":"pubsub","ns":"http://jabber.org/protocol/pubsub"}],"n":"iq"}
{"a":{"from":"ann@a.example","id":"39","to":"ann@a.example/1","type":"result"},"c":[{"c":[{"a":{"node":"urn:t"},"c":[{"a":{"id":"q"},"n":"item"}],"n":"publish"}],"n":"pubsub","ns":"http://jabber.org/protocol/pubsub"}],"n":"iq"}
> bob@b.example/1 16 {"a":{"from":"ann@a.example","id":"n-16","to":"bob@b.example/1","type":"headline"},"c":[{"c":[{"a":{"node":"urn:t"},"c":[{"a":{"id":"q"},"c":[{"n":"entry","ns":"urn:t"}],"n":"item"}],"n":"items"}],"n":"event","ns":"http://jabber.org/protocol/pubsub#event"}],"n":"message"}"#;
