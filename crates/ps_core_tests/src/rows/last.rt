// The last items of the nodes that a resource comes to want (XEP-0163 §4.3.4), with the moments of their publishes (XEP-0203).
// Made by tests/lines/hosts.py from the cases in tests/lines/hosts/last.txt.
pub const ROWS: &str = r#"a.example at 1000000000 makes
{"a":{"from":"ann@a.example/1","id":"1","type":"set"},"c":[{"c":[{"a":{"node":"urn:t"},"c":[{"a":{"id":"m"},"c":[{"n":"entry","ns":"urn:t"}],"n":"item"}],"n":"publish"}],"n":"pubsub","ns":"http://jabber.org/protocol/pubsub"}],"n":"iq"}
{"a":{"from":"ann@a.example","id":"1","to":"ann@a.example/1","type":"result"},"c":[{"c":[{"a":{"node":"urn:t"},"c":[{"a":{"id":"m"},"n":"item"}],"n":"publish"}],"n":"pubsub","ns":"http://jabber.org/protocol/pubsub"}],"n":"iq"}
-
a.example makes
{"a":{"from":"ann@a.example/1","id":"2","to":"pubsub.example","type":"set"},"c":[{"c":[{"a":{"jid":"bob@b.example","subscription":"from"},"n":"item"}],"n":"query","ns":"jabber:iq:roster"}],"n":"iq"}
{"a":{"from":"pubsub.example","id":"2","to":"ann@a.example/1","type":"result"},"n":"iq"}
-
gone a.example


-
boot


-
b.example makes
{"a":{"from":"bob@b.example/1","id":"5","to":"pubsub.example"},"c":[{"a":{"hash":"sha-1","node":"http://c.example","ver":"AAAA"},"n":"c","ns":"http://jabber.org/protocol/caps"}],"n":"presence"}

> bob@b.example/1 1 {"a":{"from":"pubsub.example","id":"n-1","to":"bob@b.example/1","type":"get"},"c":[{"a":{"node":"http://c.example#AAAA"},"n":"query","ns":"http://jabber.org/protocol/disco#info"}],"n":"iq"}
-
b.example makes
{"a":{"from":"bob@b.example/1","id":"6","to":"pubsub.example","type":"result"},"c":[{"a":{"node":"http://c.example#AAAA"},"c":[{"a":{"var":"urn:t+notify"},"n":"feature"}],"n":"query","ns":"http://jabber.org/protocol/disco#info"}],"n":"iq"}

> bob@b.example/1 2 {"a":{"from":"ann@a.example","id":"n-2","to":"bob@b.example/1","type":"headline"},"c":[{"c":[{"a":{"node":"urn:t"},"c":[{"a":{"id":"m"},"c":[{"n":"entry","ns":"urn:t"}],"n":"item"}],"n":"items"}],"n":"event","ns":"http://jabber.org/protocol/pubsub#event"},{"a":{"stamp":"2001-09-09T01:46:40Z"},"n":"delay","ns":"urn:xmpp:delay"}],"n":"message"}
-
b.example makes
{"a":{"from":"bob@b.example/1","id":"7","to":"pubsub.example"},"c":[{"a":{"hash":"sha-1","node":"http://d.example","ver":"AAAA"},"n":"c","ns":"http://jabber.org/protocol/caps"}],"n":"presence"}

> bob@b.example/1 3 {"a":{"from":"pubsub.example","id":"n-3","to":"bob@b.example/1","type":"get"},"c":[{"a":{"node":"http://d.example#AAAA"},"n":"query","ns":"http://jabber.org/protocol/disco#info"}],"n":"iq"}
-
b.example makes
{"a":{"from":"bob@b.example/1","id":"8","to":"pubsub.example","type":"result"},"c":[{"a":{"node":"http://d.example#AAAA"},"c":[{"a":{"var":"urn:t+notify"},"n":"feature"},{"a":{"var":"urn:u+notify"},"n":"feature"}],"n":"query","ns":"http://jabber.org/protocol/disco#info"}],"n":"iq"}

> bob@b.example/1 4 {"a":{"from":"ann@a.example","id":"n-4","to":"bob@b.example/1","type":"headline"},"c":[{"c":[{"a":{"node":"urn:t"},"c":[{"a":{"id":"m"},"c":[{"n":"entry","ns":"urn:t"}],"n":"item"}],"n":"items"}],"n":"event","ns":"http://jabber.org/protocol/pubsub#event"},{"a":{"stamp":"2001-09-09T01:46:40Z"},"n":"delay","ns":"urn:xmpp:delay"}],"n":"message"}
-
b.example makes
{"a":{"from":"bob@b.example/1","id":"9","to":"pubsub.example","type":"result"},"c":[{"a":{"node":"http://d.example#AAAA"},"c":[{"a":{"var":"urn:t+notify"},"n":"feature"}],"n":"query","ns":"http://jabber.org/protocol/disco#info"}],"n":"iq"}

-
b.example makes
{"a":{"from":"bob@b.example/1","id":"10","to":"pubsub.example","type":"result"},"c":[{"a":{"node":"http://d.example#AAAA"},"c":[{"a":{"var":"urn:t+notify"},"n":"feature"},{"a":{"var":"urn:v+notify"},"n":"feature"}],"n":"query","ns":"http://jabber.org/protocol/disco#info"}],"n":"iq"}

-
b.example makes
{"a":{"from":"bob@b.example/2","id":"11","to":"pubsub.example"},"c":[{"a":{"hash":"sha-1","node":"http://c.example","ver":"HqE3AGD20p3dnODEUMG0tlXStXA="},"n":"c","ns":"http://jabber.org/protocol/caps"}],"n":"presence"}

> bob@b.example/2 5 {"a":{"from":"pubsub.example","id":"n-5","to":"bob@b.example/2","type":"get"},"c":[{"a":{"node":"http://c.example#HqE3AGD20p3dnODEUMG0tlXStXA="},"n":"query","ns":"http://jabber.org/protocol/disco#info"}],"n":"iq"}
-
b.example makes
{"a":{"from":"bob@b.example/2","id":"12","to":"pubsub.example","type":"result"},"c":[{"a":{"node":"http://c.example#HqE3AGD20p3dnODEUMG0tlXStXA="},"c":[{"a":{"var":"urn:t+notify"},"n":"feature"}],"n":"query","ns":"http://jabber.org/protocol/disco#info"}],"n":"iq"}

> bob@b.example/2 6 {"a":{"from":"ann@a.example","id":"n-6","to":"bob@b.example/2","type":"headline"},"c":[{"c":[{"a":{"node":"urn:t"},"c":[{"a":{"id":"m"},"c":[{"n":"entry","ns":"urn:t"}],"n":"item"}],"n":"items"}],"n":"event","ns":"http://jabber.org/protocol/pubsub#event"},{"a":{"stamp":"2001-09-09T01:46:40Z"},"n":"delay","ns":"urn:xmpp:delay"}],"n":"message"}
-
b.example makes
{"a":{"from":"bob@b.example/3","id":"13","to":"pubsub.example"},"c":[{"a":{"hash":"sha-1","node":"http://e.example","ver":"HqE3AGD20p3dnODEUMG0tlXStXA="},"n":"c","ns":"http://jabber.org/protocol/caps"}],"n":"presence"}

> bob@b.example/3 7 {"a":{"from":"ann@a.example","id":"n-7","to":"bob@b.example/3","type":"headline"},"c":[{"c":[{"a":{"node":"urn:t"},"c":[{"a":{"id":"m"},"c":[{"n":"entry","ns":"urn:t"}],"n":"item"}],"n":"items"}],"n":"event","ns":"http://jabber.org/protocol/pubsub#event"},{"a":{"stamp":"2001-09-09T01:46:40Z"},"n":"delay","ns":"urn:xmpp:delay"}],"n":"message"}
-
b.example makes
{"a":{"from":"bob@b.example/3","id":"14","to":"pubsub.example","type":"unavailable"},"n":"presence"}

-
a.example makes
{"a":{"from":"ann@a.example/1","id":"15","type":"set"},"c":[{"c":[{"a":{"node":"urn:t"},"c":[{"a":{"id":"n"},"c":[{"n":"entry","ns":"urn:t"}],"n":"item"}],"n":"publish"}],"n":"pubsub","ns":"http://jabber.org/protocol/pubsub"}],"n":"iq"}
{"a":{"from":"ann@a.example","id":"15","to":"ann@a.example/1","type":"result"},"c":[{"c":[{"a":{"node":"urn:t"},"c":[{"a":{"id":"n"},"n":"item"}],"n":"publish"}],"n":"pubsub","ns":"http://jabber.org/protocol/pubsub"}],"n":"iq"}
> bob@b.example/1 8 {"a":{"from":"ann@a.example","id":"n-8","to":"bob@b.example/1","type":"headline"},"c":[{"c":[{"a":{"node":"urn:t"},"c":[{"a":{"id":"n"},"c":[{"n":"entry","ns":"urn:t"}],"n":"item"}],"n":"items"}],"n":"event","ns":"http://jabber.org/protocol/pubsub#event"}],"n":"message"}
> bob@b.example/2 9 {"a":{"from":"ann@a.example","id":"n-9","to":"bob@b.example/2","type":"headline"},"c":[{"c":[{"a":{"node":"urn:t"},"c":[{"a":{"id":"n"},"c":[{"n":"entry","ns":"urn:t"}],"n":"item"}],"n":"items"}],"n":"event","ns":"http://jabber.org/protocol/pubsub#event"}],"n":"message"}
-
b.example makes
{"a":{"from":"bob@b.example/3","id":"16","to":"pubsub.example"},"c":[{"a":{"hash":"sha-1","node":"http://e.example","ver":"HqE3AGD20p3dnODEUMG0tlXStXA="},"n":"c","ns":"http://jabber.org/protocol/caps"}],"n":"presence"}

> bob@b.example/3 10 {"a":{"from":"ann@a.example","id":"n-10","to":"bob@b.example/3","type":"headline"},"c":[{"c":[{"a":{"node":"urn:t"},"c":[{"a":{"id":"n"},"c":[{"n":"entry","ns":"urn:t"}],"n":"item"}],"n":"items"}],"n":"event","ns":"http://jabber.org/protocol/pubsub#event"}],"n":"message"}
-
b.example makes
{"a":{"from":"cid@b.example/1","id":"17","type":"set"},"c":[{"c":[{"a":{"node":"urn:v"},"c":[{"a":{"id":"c"},"c":[{"n":"entry","ns":"urn:t"}],"n":"item"}],"n":"publish"},{"c":[{"a":{"type":"submit"},"c":[{"a":{"var":"FORM_TYPE"},"c":[{"c":["http://jabber.org/protocol/pubsub#publish-options"],"n":"value"}],"n":"field"},{"a":{"var":"pubsub#access_model"},"c":[{"c":["open"],"n":"value"}],"n":"field"}],"n":"x","ns":"jabber:x:data"}],"n":"publish-options"}],"n":"pubsub","ns":"http://jabber.org/protocol/pubsub"}],"n":"iq"}
{"a":{"from":"cid@b.example","id":"17","to":"cid@b.example/1","type":"result"},"c":[{"c":[{"a":{"node":"urn:v"},"c":[{"a":{"id":"c"},"n":"item"}],"n":"publish"}],"n":"pubsub","ns":"http://jabber.org/protocol/pubsub"}],"n":"iq"}
-
b.example makes
{"a":{"from":"cid@b.example/1","id":"18","type":"set"},"c":[{"c":[{"a":{"node":"urn:t"},"c":[{"a":{"id":"d"},"c":[{"n":"entry","ns":"urn:t"}],"n":"item"}],"n":"publish"},{"c":[{"a":{"type":"submit"},"c":[{"a":{"var":"FORM_TYPE"},"c":[{"c":["http://jabber.org/protocol/pubsub#publish-options"],"n":"value"}],"n":"field"},{"a":{"var":"pubsub#access_model"},"c":[{"c":["open"],"n":"value"}],"n":"field"},{"a":{"var":"pubsub#notification_type"},"c":[{"c":["normal"],"n":"value"}],"n":"field"}],"n":"x","ns":"jabber:x:data"}],"n":"publish-options"}],"n":"pubsub","ns":"http://jabber.org/protocol/pubsub"}],"n":"iq"}
{"a":{"from":"cid@b.example","id":"18","to":"cid@b.example/1","type":"result"},"c":[{"c":[{"a":{"node":"urn:t"},"c":[{"a":{"id":"d"},"n":"item"}],"n":"publish"}],"n":"pubsub","ns":"http://jabber.org/protocol/pubsub"}],"n":"iq"}
-
b.example makes
{"a":{"from":"cid@b.example/1","id":"19","type":"set"},"c":[{"c":[{"a":{"node":"urn:w"},"c":[{"a":{"id":"e"},"c":[{"n":"entry","ns":"urn:t"}],"n":"item"}],"n":"publish"},{"c":[{"a":{"type":"submit"},"c":[{"a":{"var":"FORM_TYPE"},"c":[{"c":["http://jabber.org/protocol/pubsub#publish-options"],"n":"value"}],"n":"field"},{"a":{"var":"pubsub#access_model"},"c":[{"c":["open"],"n":"value"}],"n":"field"},{"a":{"var":"pubsub#send_last_published_item"},"c":[{"c":["on_sub"],"n":"value"}],"n":"field"}],"n":"x","ns":"jabber:x:data"}],"n":"publish-options"}],"n":"pubsub","ns":"http://jabber.org/protocol/pubsub"}],"n":"iq"}
{"a":{"from":"cid@b.example","id":"19","to":"cid@b.example/1","type":"result"},"c":[{"c":[{"a":{"node":"urn:w"},"c":[{"a":{"id":"e"},"n":"item"}],"n":"publish"}],"n":"pubsub","ns":"http://jabber.org/protocol/pubsub"}],"n":"iq"}
-
b.example makes
{"a":{"from":"cid@b.example/1","id":"20","type":"set"},"c":[{"c":[{"a":{"node":"urn:u"},"c":[{"a":{"id":"f"},"c":[{"n":"entry","ns":"urn:t"}],"n":"item"}],"n":"publish"},{"c":[{"a":{"type":"submit"},"c":[{"a":{"var":"FORM_TYPE"},"c":[{"c":["http://jabber.org/protocol/pubsub#publish-options"],"n":"value"}],"n":"field"},{"a":{"var":"pubsub#access_model"},"c":[{"c":["open"],"n":"value"}],"n":"field"}],"n":"x","ns":"jabber:x:data"}],"n":"publish-options"}],"n":"pubsub","ns":"http://jabber.org/protocol/pubsub"}],"n":"iq"}
{"a":{"from":"cid@b.example","id":"20","to":"cid@b.example/1","type":"result"},"c":[{"c":[{"a":{"node":"urn:u"},"c":[{"a":{"id":"f"},"n":"item"}],"n":"publish"}],"n":"pubsub","ns":"http://jabber.org/protocol/pubsub"}],"n":"iq"}
-
b.example makes
{"a":{"from":"cid@b.example/1","id":"21","type":"set"},"c":[{"c":[{"a":{"node":"urn:u"},"c":[{"a":{"id":"f"},"n":"item"}],"n":"retract"}],"n":"pubsub","ns":"http://jabber.org/protocol/pubsub"}],"n":"iq"}
{"a":{"from":"cid@b.example","id":"21","to":"cid@b.example/1","type":"result"},"n":"iq"}
-
b.example makes
{"a":{"from":"cid@b.example/1","id":"22","to":"pubsub.example","type":"set"},"c":[{"c":[{"a":{"jid":"bob@b.example","subscription":"both"},"n":"item"}],"n":"query","ns":"jabber:iq:roster"}],"n":"iq"}
{"a":{"from":"pubsub.example","id":"22","to":"cid@b.example/1","type":"result"},"n":"iq"}
-
b.example makes
{"a":{"from":"bob@b.example/4","id":"23","to":"pubsub.example"},"c":[{"a":{"hash":"md5","node":"http://f.example","ver":"BBBB"},"n":"c","ns":"http://jabber.org/protocol/caps"}],"n":"presence"}

> bob@b.example/4 11 {"a":{"from":"pubsub.example","id":"n-11","to":"bob@b.example/4","type":"get"},"c":[{"a":{"node":"http://f.example#BBBB"},"n":"query","ns":"http://jabber.org/protocol/disco#info"}],"n":"iq"}
-
b.example makes
{"a":{"from":"bob@b.example/4","id":"24","to":"pubsub.example","type":"result"},"c":[{"c":[{"a":{"var":"urn:w+notify"},"n":"feature"},{"a":{"var":"urn:v+notify"},"n":"feature"},{"a":{"var":"urn:u+notify"},"n":"feature"},{"a":{"var":"urn:t+notify"},"n":"feature"}],"n":"query","ns":"http://jabber.org/protocol/disco#info"}],"n":"iq"}

> bob@b.example/4 12 {"a":{"from":"ann@a.example","id":"n-12","to":"bob@b.example/4","type":"headline"},"c":[{"c":[{"a":{"node":"urn:t"},"c":[{"a":{"id":"n"},"c":[{"n":"entry","ns":"urn:t"}],"n":"item"}],"n":"items"}],"n":"event","ns":"http://jabber.org/protocol/pubsub#event"}],"n":"message"}
> bob@b.example/4 13 {"a":{"from":"cid@b.example","id":"n-13","to":"bob@b.example/4","type":"headline"},"c":[{"c":[{"a":{"node":"urn:v"},"c":[{"a":{"id":"c"},"c":[{"n":"entry","ns":"urn:t"}],"n":"item"}],"n":"items"}],"n":"event","ns":"http://jabber.org/protocol/pubsub#event"}],"n":"message"}
> bob@b.example/4 14 {"a":{"from":"cid@b.example","id":"n-14","to":"bob@b.example/4"},"c":[{"c":[{"a":{"node":"urn:t"},"c":[{"a":{"id":"d"},"c":[{"n":"entry","ns":"urn:t"}],"n":"item"}],"n":"items"}],"n":"event","ns":"http://jabber.org/protocol/pubsub#event"}],"n":"message"}
-
a.example makes
{"a":{"from":"ann@a.example/2","id":"25","to":"pubsub.example"},"c":[{"a":{"hash":"sha-1","node":"http://c.example","ver":"HqE3AGD20p3dnODEUMG0tlXStXA="},"n":"c","ns":"http://jabber.org/protocol/caps"}],"n":"presence"}

> ann@a.example/2 1 {"a":{"from":"ann@a.example","id":"n-1","to":"ann@a.example/2","type":"headline"},"c":[{"c":[{"a":{"node":"urn:t"},"c":[{"a":{"id":"n"},"c":[{"n":"entry","ns":"urn:t"}],"n":"item"}],"n":"items"}],"n":"event","ns":"http://jabber.org/protocol/pubsub#event"}],"n":"message"}
-
gone b.example


-
a.example makes
{"a":{"from":"ann@a.example/1","id":"27","type":"set"},"c":[{"c":[{"a":{"node":"urn:t"},"c":[{"a":{"id":"o"},"c":[{"n":"entry","ns":"urn:t"}],"n":"item"}],"n":"publish"}],"n":"pubsub","ns":"http://jabber.org/protocol/pubsub"}],"n":"iq"}
{"a":{"from":"ann@a.example","id":"27","to":"ann@a.example/1","type":"result"},"c":[{"c":[{"a":{"node":"urn:t"},"c":[{"a":{"id":"o"},"n":"item"}],"n":"publish"}],"n":"pubsub","ns":"http://jabber.org/protocol/pubsub"}],"n":"iq"}
> ann@a.example/2 2 {"a":{"from":"ann@a.example","id":"n-2","to":"ann@a.example/2","type":"headline"},"c":[{"c":[{"a":{"node":"urn:t"},"c":[{"a":{"id":"o"},"c":[{"n":"entry","ns":"urn:t"}],"n":"item"}],"n":"items"}],"n":"event","ns":"http://jabber.org/protocol/pubsub#event"}],"n":"message"}"#;
