// Who may read, publish and subscribe, asked from two hosts (XEP-0060 §4.5).
// Made by tests/lines/hosts.py from the cases in tests/lines/hosts/access.txt.
pub const ROWS: &str = r#"a.example makes
{"a":{"from":"ann@a.example/1","id":"1","to":"pubsub.example","type":"set"},"c":[{"c":[{"a":{"node":"w"},"n":"create"},{"c":[{"a":{"type":"submit"},"c":[{"a":{"var":"FORM_TYPE"},"c":[{"c":["http://jabber.org/protocol/pubsub#node_config"],"n":"value"}],"n":"field"},{"a":{"var":"pubsub#access_model"},"c":[{"c":["whitelist"],"n":"value"}],"n":"field"}],"n":"x","ns":"jabber:x:data"}],"n":"configure"}],"n":"pubsub","ns":"http://jabber.org/protocol/pubsub"}],"n":"iq"}
{"a":{"from":"pubsub.example","id":"1","to":"ann@a.example/1","type":"result"},"n":"iq"}
-
a.example makes
{"a":{"from":"ann@a.example/1","id":"2","to":"pubsub.example","type":"set"},"c":[{"c":[{"a":{"node":"w"},"c":[{"a":{"id":"x"},"c":[{"n":"entry","ns":"urn:t"}],"n":"item"}],"n":"publish"}],"n":"pubsub","ns":"http://jabber.org/protocol/pubsub"}],"n":"iq"}
{"a":{"from":"pubsub.example","id":"2","to":"ann@a.example/1","type":"result"},"c":[{"c":[{"a":{"node":"w"},"c":[{"a":{"id":"x"},"n":"item"}],"n":"publish"}],"n":"pubsub","ns":"http://jabber.org/protocol/pubsub"}],"n":"iq"}
-
a.example makes
{"a":{"from":"ann@a.example/1","id":"3","to":"pubsub.example","type":"set"},"c":[{"c":[{"a":{"node":"w"},"c":[{"a":{"affiliation":"member","jid":"bob@b.example"},"n":"affiliation"},{"a":{"affiliation":"publish-only","jid":"cid@b.example"},"n":"affiliation"},{"a":{"affiliation":"outcast","jid":"dot@b.example"},"n":"affiliation"}],"n":"affiliations"}],"n":"pubsub","ns":"http://jabber.org/protocol/pubsub#owner"}],"n":"iq"}
{"a":{"from":"pubsub.example","id":"3","to":"ann@a.example/1","type":"result"},"n":"iq"}
-
b.example
{"a":{"from":"alf@b.example/1","id":"4","to":"pubsub.example","type":"get"},"c":[{"c":[{"a":{"node":"w"},"n":"items"}],"n":"pubsub","ns":"http://jabber.org/protocol/pubsub"}],"n":"iq"}
{"a":{"from":"pubsub.example","id":"4","to":"alf@b.example/1","type":"error"},"c":[{"a":{"type":"cancel"},"c":[{"n":"not-allowed","ns":"urn:ietf:params:xml:ns:xmpp-stanzas"},{"n":"closed-node","ns":"http://jabber.org/protocol/pubsub#errors"}],"n":"error"}],"n":"iq"}
-
b.example
{"a":{"from":"bob@b.example/1","id":"5","to":"pubsub.example","type":"get"},"c":[{"c":[{"a":{"node":"w"},"n":"items"}],"n":"pubsub","ns":"http://jabber.org/protocol/pubsub"}],"n":"iq"}
{"a":{"from":"pubsub.example","id":"5","to":"bob@b.example/1","type":"result"},"c":[{"c":[{"a":{"node":"w"},"c":[{"a":{"id":"x"},"c":[{"n":"entry","ns":"urn:t"}],"n":"item"}],"n":"items"}],"n":"pubsub","ns":"http://jabber.org/protocol/pubsub"}],"n":"iq"}
-
b.example
{"a":{"from":"cid@b.example/1","id":"6","to":"pubsub.example","type":"get"},"c":[{"c":[{"a":{"node":"w"},"n":"items"}],"n":"pubsub","ns":"http://jabber.org/protocol/pubsub"}],"n":"iq"}
{"a":{"from":"pubsub.example","id":"6","to":"cid@b.example/1","type":"error"},"c":[{"a":{"type":"auth"},"c":[{"n":"forbidden","ns":"urn:ietf:params:xml:ns:xmpp-stanzas"}],"n":"error"}],"n":"iq"}
-
b.example
{"a":{"from":"dot@b.example/1","id":"7","to":"pubsub.example","type":"get"},"c":[{"c":[{"a":{"node":"w"},"n":"items"}],"n":"pubsub","ns":"http://jabber.org/protocol/pubsub"}],"n":"iq"}
{"a":{"from":"pubsub.example","id":"7","to":"dot@b.example/1","type":"error"},"c":[{"a":{"type":"auth"},"c":[{"n":"forbidden","ns":"urn:ietf:params:xml:ns:xmpp-stanzas"}],"n":"error"}],"n":"iq"}
-
b.example
{"a":{"from":"alf@b.example/1","id":"8","to":"pubsub.example","type":"get"},"c":[{"a":{"node":"w"},"n":"query","ns":"http://jabber.org/protocol/disco#items"}],"n":"iq"}
{"a":{"from":"pubsub.example","id":"8","to":"alf@b.example/1","type":"error"},"c":[{"a":{"type":"cancel"},"c":[{"n":"not-allowed","ns":"urn:ietf:params:xml:ns:xmpp-stanzas"},{"n":"closed-node","ns":"http://jabber.org/protocol/pubsub#errors"}],"n":"error"}],"n":"iq"}
-
b.example
{"a":{"from":"alf@b.example/1","id":"9","to":"pubsub.example","type":"set"},"c":[{"c":[{"a":{"jid":"alf@b.example","node":"w"},"n":"subscribe"}],"n":"pubsub","ns":"http://jabber.org/protocol/pubsub"}],"n":"iq"}
{"a":{"from":"pubsub.example","id":"9","to":"alf@b.example/1","type":"error"},"c":[{"a":{"type":"cancel"},"c":[{"n":"not-allowed","ns":"urn:ietf:params:xml:ns:xmpp-stanzas"},{"n":"closed-node","ns":"http://jabber.org/protocol/pubsub#errors"}],"n":"error"}],"n":"iq"}
-
b.example
{"a":{"from":"alf@b.example/1","id":"10","to":"pubsub.example","type":"set"},"c":[{"c":[{"a":{"node":"w"},"c":[{"a":{"id":"x"},"n":"item"}],"n":"retract"}],"n":"pubsub","ns":"http://jabber.org/protocol/pubsub"}],"n":"iq"}
{"a":{"from":"pubsub.example","id":"10","to":"alf@b.example/1","type":"error"},"c":[{"a":{"type":"auth"},"c":[{"n":"forbidden","ns":"urn:ietf:params:xml:ns:xmpp-stanzas"}],"n":"error"}],"n":"iq"}
-
b.example
{"a":{"from":"alf@b.example/1","id":"11","to":"pubsub.example","type":"set"},"c":[{"c":[{"a":{"node":"w"},"c":[{"a":{"id":"nope"},"n":"item"}],"n":"retract"}],"n":"pubsub","ns":"http://jabber.org/protocol/pubsub"}],"n":"iq"}
{"a":{"from":"pubsub.example","id":"11","to":"alf@b.example/1","type":"error"},"c":[{"a":{"type":"auth"},"c":[{"n":"forbidden","ns":"urn:ietf:params:xml:ns:xmpp-stanzas"}],"n":"error"}],"n":"iq"}
-
a.example makes
{"a":{"from":"ann@a.example/1","id":"12","to":"pubsub.example","type":"set"},"c":[{"c":[{"a":{"node":"q"},"n":"create"},{"c":[{"a":{"type":"submit"},"c":[{"a":{"var":"FORM_TYPE"},"c":[{"c":["http://jabber.org/protocol/pubsub#node_config"],"n":"value"}],"n":"field"},{"a":{"var":"pubsub#access_model"},"c":[{"c":["authorize"],"n":"value"}],"n":"field"}],"n":"x","ns":"jabber:x:data"}],"n":"configure"}],"n":"pubsub","ns":"http://jabber.org/protocol/pubsub"}],"n":"iq"}
{"a":{"from":"pubsub.example","id":"12","to":"ann@a.example/1","type":"result"},"n":"iq"}
-
b.example makes
{"a":{"from":"bob@b.example/1","id":"13","to":"pubsub.example","type":"set"},"c":[{"c":[{"a":{"jid":"bob@b.example","node":"q"},"n":"subscribe"}],"n":"pubsub","ns":"http://jabber.org/protocol/pubsub"}],"n":"iq"}
{"a":{"from":"pubsub.example","id":"13","to":"bob@b.example/1","type":"result"},"c":[{"c":[{"a":{"jid":"bob@b.example","node":"q","subscription":"pending"},"n":"subscription"}],"n":"pubsub","ns":"http://jabber.org/protocol/pubsub"}],"n":"iq"}
> ann@a.example 1 {"a":{"from":"pubsub.example","id":"n-1","to":"ann@a.example"},"c":[{"a":{"type":"form"},"c":[{"a":{"type":"hidden","var":"FORM_TYPE"},"c":[{"c":["http://jabber.org/protocol/pubsub#subscribe_authorization"],"n":"value"}],"n":"field"},{"a":{"type":"text-single","var":"pubsub#node"},"c":[{"c":["q"],"n":"value"}],"n":"field"},{"a":{"type":"jid-single","var":"pubsub#subscriber_jid"},"c":[{"c":["bob@b.example"],"n":"value"}],"n":"field"},{"a":{"type":"boolean","var":"pubsub#allow"},"c":[{"c":["0"],"n":"value"}],"n":"field"}],"n":"x","ns":"jabber:x:data"}],"n":"message"}
-
b.example
{"a":{"from":"bob@b.example/1","id":"14","to":"pubsub.example","type":"set"},"c":[{"c":[{"a":{"jid":"bob@b.example","node":"q"},"n":"subscribe"}],"n":"pubsub","ns":"http://jabber.org/protocol/pubsub"}],"n":"iq"}
{"a":{"from":"pubsub.example","id":"14","to":"bob@b.example/1","type":"error"},"c":[{"a":{"type":"auth"},"c":[{"n":"not-authorized","ns":"urn:ietf:params:xml:ns:xmpp-stanzas"},{"n":"pending-subscription","ns":"http://jabber.org/protocol/pubsub#errors"}],"n":"error"}],"n":"iq"}
-
b.example
{"a":{"from":"bob@b.example/1","id":"15","to":"pubsub.example","type":"get"},"c":[{"c":[{"a":{"node":"q"},"n":"items"}],"n":"pubsub","ns":"http://jabber.org/protocol/pubsub"}],"n":"iq"}
{"a":{"from":"pubsub.example","id":"15","to":"bob@b.example/1","type":"error"},"c":[{"a":{"type":"auth"},"c":[{"n":"not-authorized","ns":"urn:ietf:params:xml:ns:xmpp-stanzas"},{"n":"not-subscribed","ns":"http://jabber.org/protocol/pubsub#errors"}],"n":"error"}],"n":"iq"}
-
b.example
{"a":{"from":"bob@b.example/1","id":"16","to":"pubsub.example","type":"get"},"c":[{"c":[{"n":"subscriptions"}],"n":"pubsub","ns":"http://jabber.org/protocol/pubsub"}],"n":"iq"}
{"a":{"from":"pubsub.example","id":"16","to":"bob@b.example/1","type":"result"},"c":[{"c":[{"c":[{"a":{"jid":"bob@b.example","node":"q","subscription":"pending"},"n":"subscription"}],"n":"subscriptions"}],"n":"pubsub","ns":"http://jabber.org/protocol/pubsub"}],"n":"iq"}
-
a.example makes
{"a":{"from":"ann@a.example/1","id":"17","to":"pubsub.example"},"c":[{"a":{"type":"submit"},"c":[{"a":{"var":"FORM_TYPE"},"c":[{"c":["http://jabber.org/protocol/pubsub#subscribe_authorization"],"n":"value"}],"n":"field"},{"a":{"var":"pubsub#node"},"c":[{"c":["q"],"n":"value"}],"n":"field"},{"a":{"var":"pubsub#subscriber_jid"},"c":[{"c":["bob@b.example"],"n":"value"}],"n":"field"},{"a":{"var":"pubsub#allow"},"c":[{"c":["0"],"n":"value"}],"n":"field"}],"n":"x","ns":"jabber:x:data"}],"n":"message"}

> bob@b.example 1 {"a":{"from":"pubsub.example","id":"n-1","to":"bob@b.example"},"c":[{"c":[{"a":{"jid":"bob@b.example","node":"q","subscription":"none"},"n":"subscription"}],"n":"pubsub","ns":"http://jabber.org/protocol/pubsub"}],"n":"message"}
-
b.example
{"a":{"from":"bob@b.example/1","id":"18","to":"pubsub.example","type":"get"},"c":[{"c":[{"a":{"node":"q"},"n":"items"}],"n":"pubsub","ns":"http://jabber.org/protocol/pubsub"}],"n":"iq"}
{"a":{"from":"pubsub.example","id":"18","to":"bob@b.example/1","type":"error"},"c":[{"a":{"type":"auth"},"c":[{"n":"not-authorized","ns":"urn:ietf:params:xml:ns:xmpp-stanzas"},{"n":"not-subscribed","ns":"http://jabber.org/protocol/pubsub#errors"}],"n":"error"}],"n":"iq"}
-
b.example makes
{"a":{"from":"bob@b.example/1","id":"19","to":"pubsub.example","type":"set"},"c":[{"c":[{"a":{"jid":"bob@b.example","node":"q"},"n":"subscribe"}],"n":"pubsub","ns":"http://jabber.org/protocol/pubsub"}],"n":"iq"}
{"a":{"from":"pubsub.example","id":"19","to":"bob@b.example/1","type":"result"},"c":[{"c":[{"a":{"jid":"bob@b.example","node":"q","subscription":"pending"},"n":"subscription"}],"n":"pubsub","ns":"http://jabber.org/protocol/pubsub"}],"n":"iq"}
> ann@a.example 2 {"a":{"from":"pubsub.example","id":"n-2","to":"ann@a.example"},"c":[{"a":{"type":"form"},"c":[{"a":{"type":"hidden","var":"FORM_TYPE"},"c":[{"c":["http://jabber.org/protocol/pubsub#subscribe_authorization"],"n":"value"}],"n":"field"},{"a":{"type":"text-single","var":"pubsub#node"},"c":[{"c":["q"],"n":"value"}],"n":"field"},{"a":{"type":"jid-single","var":"pubsub#subscriber_jid"},"c":[{"c":["bob@b.example"],"n":"value"}],"n":"field"},{"a":{"type":"boolean","var":"pubsub#allow"},"c":[{"c":["0"],"n":"value"}],"n":"field"}],"n":"x","ns":"jabber:x:data"}],"n":"message"}
-
a.example makes
{"a":{"from":"ann@a.example/1","id":"20","to":"pubsub.example"},"c":[{"a":{"type":"submit"},"c":[{"a":{"var":"FORM_TYPE"},"c":[{"c":["http://jabber.org/protocol/pubsub#subscribe_authorization"],"n":"value"}],"n":"field"},{"a":{"var":"pubsub#node"},"c":[{"c":["q"],"n":"value"}],"n":"field"},{"a":{"var":"pubsub#subscriber_jid"},"c":[{"c":["bob@b.example"],"n":"value"}],"n":"field"},{"a":{"var":"pubsub#allow"},"c":[{"c":["1"],"n":"value"}],"n":"field"}],"n":"x","ns":"jabber:x:data"}],"n":"message"}

> bob@b.example 2 {"a":{"from":"pubsub.example","id":"n-2","to":"bob@b.example"},"c":[{"c":[{"a":{"jid":"bob@b.example","node":"q","subscription":"subscribed"},"n":"subscription"}],"n":"pubsub","ns":"http://jabber.org/protocol/pubsub"}],"n":"message"}
-
b.example
{"a":{"from":"bob@b.example/1","id":"21","to":"pubsub.example","type":"get"},"c":[{"c":[{"a":{"node":"q"},"n":"items"}],"n":"pubsub","ns":"http://jabber.org/protocol/pubsub"}],"n":"iq"}
{"a":{"from":"pubsub.example","id":"21","to":"bob@b.example/1","type":"result"},"c":[{"c":[{"a":{"node":"q"},"n":"items"}],"n":"pubsub","ns":"http://jabber.org/protocol/pubsub"}],"n":"iq"}
-
a.example makes
{"a":{"from":"ann@a.example/1","id":"22","to":"pubsub.example","type":"set"},"c":[{"c":[{"a":{"node":"s"},"n":"create"},{"c":[{"a":{"type":"submit"},"c":[{"a":{"var":"FORM_TYPE"},"c":[{"c":["http://jabber.org/protocol/pubsub#node_config"],"n":"value"}],"n":"field"},{"a":{"var":"pubsub#publish_model"},"c":[{"c":["subscribers"],"n":"value"}],"n":"field"}],"n":"x","ns":"jabber:x:data"}],"n":"configure"}],"n":"pubsub","ns":"http://jabber.org/protocol/pubsub"}],"n":"iq"}
{"a":{"from":"pubsub.example","id":"22","to":"ann@a.example/1","type":"result"},"n":"iq"}
-
b.example
{"a":{"from":"bob@b.example/1","id":"23","to":"pubsub.example","type":"set"},"c":[{"c":[{"a":{"node":"s"},"c":[{"a":{"id":"y"},"c":[{"n":"entry","ns":"urn:t"}],"n":"item"}],"n":"publish"}],"n":"pubsub","ns":"http://jabber.org/protocol/pubsub"}],"n":"iq"}
{"a":{"from":"pubsub.example","id":"23","to":"bob@b.example/1","type":"error"},"c":[{"a":{"type":"auth"},"c":[{"n":"forbidden","ns":"urn:ietf:params:xml:ns:xmpp-stanzas"}],"n":"error"}],"n":"iq"}
-
b.example makes
{"a":{"from":"bob@b.example/1","id":"24","to":"pubsub.example","type":"set"},"c":[{"c":[{"a":{"jid":"bob@b.example","node":"s"},"n":"subscribe"}],"n":"pubsub","ns":"http://jabber.org/protocol/pubsub"}],"n":"iq"}
{"a":{"from":"pubsub.example","id":"24","to":"bob@b.example/1","type":"result"},"c":[{"c":[{"a":{"jid":"bob@b.example","node":"s","subscription":"subscribed"},"n":"subscription"}],"n":"pubsub","ns":"http://jabber.org/protocol/pubsub"}],"n":"iq"}
-
b.example makes
{"a":{"from":"bob@b.example/1","id":"25","to":"pubsub.example","type":"set"},"c":[{"c":[{"a":{"node":"s"},"c":[{"a":{"id":"y"},"c":[{"n":"entry","ns":"urn:t"}],"n":"item"}],"n":"publish"}],"n":"pubsub","ns":"http://jabber.org/protocol/pubsub"}],"n":"iq"}
{"a":{"from":"pubsub.example","id":"25","to":"bob@b.example/1","type":"result"},"c":[{"c":[{"a":{"node":"s"},"c":[{"a":{"id":"y"},"n":"item"}],"n":"publish"}],"n":"pubsub","ns":"http://jabber.org/protocol/pubsub"}],"n":"iq"}
> bob@b.example 3 {"a":{"from":"pubsub.example","id":"n-3","to":"bob@b.example","type":"headline"},"c":[{"c":[{"a":{"node":"s"},"c":[{"a":{"id":"y"},"c":[{"n":"entry","ns":"urn:t"}],"n":"item"}],"n":"items"}],"n":"event","ns":"http://jabber.org/protocol/pubsub#event"}],"n":"message"}
-
a.example
{"a":{"from":"ann@a.example/1","id":"26","to":"pubsub.example","type":"set"},"c":[{"c":[{"a":{"node":"s"},"c":[{"a":{"affiliation":"none","jid":"ann@a.example"},"n":"affiliation"}],"n":"affiliations"}],"n":"pubsub","ns":"http://jabber.org/protocol/pubsub#owner"}],"n":"iq"}
{"a":{"from":"pubsub.example","id":"26","to":"ann@a.example/1","type":"error"},"c":[{"a":{"type":"modify"},"c":[{"n":"not-acceptable","ns":"urn:ietf:params:xml:ns:xmpp-stanzas"}],"n":"error"}],"n":"iq"}
-
a.example makes
{"a":{"from":"ann@a.example/1","id":"27","to":"pubsub.example","type":"set"},"c":[{"c":[{"a":{"node":"s"},"c":[{"a":{"affiliation":"owner","jid":"bob@b.example"},"n":"affiliation"},{"a":{"affiliation":"none","jid":"ann@a.example"},"n":"affiliation"}],"n":"affiliations"}],"n":"pubsub","ns":"http://jabber.org/protocol/pubsub#owner"}],"n":"iq"}
{"a":{"from":"pubsub.example","id":"27","to":"ann@a.example/1","type":"result"},"n":"iq"}
-
a.example
{"a":{"from":"ann@a.example/1","id":"28","to":"pubsub.example","type":"get"},"c":[{"c":[{"a":{"node":"s"},"n":"configure"}],"n":"pubsub","ns":"http://jabber.org/protocol/pubsub#owner"}],"n":"iq"}
{"a":{"from":"pubsub.example","id":"28","to":"ann@a.example/1","type":"error"},"c":[{"a":{"type":"auth"},"c":[{"n":"forbidden","ns":"urn:ietf:params:xml:ns:xmpp-stanzas"}],"n":"error"}],"n":"iq"}
-
b.example
{"a":{"from":"bob@b.example/1","id":"29","to":"pubsub.example","type":"set"},"c":[{"c":[{"a":{"jid":"bob@b.example","node":"w"},"n":"unsubscribe"}],"n":"pubsub","ns":"http://jabber.org/protocol/pubsub"}],"n":"iq"}
{"a":{"from":"pubsub.example","id":"29","to":"bob@b.example/1","type":"error"},"c":[{"a":{"type":"cancel"},"c":[{"n":"unexpected-request","ns":"urn:ietf:params:xml:ns:xmpp-stanzas"},{"n":"not-subscribed","ns":"http://jabber.org/protocol/pubsub#errors"}],"n":"error"}],"n":"iq"}
-
b.example
{"a":{"from":"bob@b.example/1","id":"30","to":"pubsub.example","type":"set"},"c":[{"c":[{"a":{"jid":"bob@b.example","node":"s","subid":"1"},"n":"unsubscribe"}],"n":"pubsub","ns":"http://jabber.org/protocol/pubsub"}],"n":"iq"}
{"a":{"from":"pubsub.example","id":"30","to":"bob@b.example/1","type":"error"},"c":[{"a":{"type":"modify"},"c":[{"n":"not-acceptable","ns":"urn:ietf:params:xml:ns:xmpp-stanzas"},{"n":"invalid-subid","ns":"http://jabber.org/protocol/pubsub#errors"}],"n":"error"}],"n":"iq"}
-
b.example
{"a":{"from":"cid@b.example/1","id":"31","to":"pubsub.example","type":"set"},"c":[{"c":[{"a":{"jid":"bob@b.example","node":"s"},"n":"unsubscribe"}],"n":"pubsub","ns":"http://jabber.org/protocol/pubsub"}],"n":"iq"}
{"a":{"from":"pubsub.example","id":"31","to":"cid@b.example/1","type":"error"},"c":[{"a":{"type":"auth"},"c":[{"n":"forbidden","ns":"urn:ietf:params:xml:ns:xmpp-stanzas"}],"n":"error"}],"n":"iq"}
-
b.example
{"a":{"from":"bob@b.example/1","id":"32","to":"pubsub.example","type":"set"},"c":[{"c":[{"a":{"jid":"cid@b.example","node":"s"},"n":"subscribe"}],"n":"pubsub","ns":"http://jabber.org/protocol/pubsub"}],"n":"iq"}
{"a":{"from":"pubsub.example","id":"32","to":"bob@b.example/1","type":"error"},"c":[{"a":{"type":"modify"},"c":[{"n":"bad-request","ns":"urn:ietf:params:xml:ns:xmpp-stanzas"},{"n":"invalid-jid","ns":"http://jabber.org/protocol/pubsub#errors"}],"n":"error"}],"n":"iq"}"#;
