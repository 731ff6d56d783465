// Collections, as lines make them, keep them and let them go (XEP-0248).
// Made by tests/lines/hosts.py from the cases in tests/lines/hosts/collections.txt.
pub const ROWS: &str = r#"a.example makes
{"a":{"from":"ann@a.example/1","id":"1","to":"pubsub.example","type":"set"},"c":[{"c":[{"a":{"node":"news"},"n":"create"}],"n":"pubsub","ns":"http://jabber.org/protocol/pubsub"}],"n":"iq"}
{"a":{"from":"pubsub.example","id":"1","to":"ann@a.example/1","type":"result"},"n":"iq"}
-
a.example makes
{"a":{"from":"ann@a.example/1","id":"2","to":"pubsub.example","type":"set"},"c":[{"c":[{"a":{"node":"top"},"n":"create"},{"c":[{"a":{"type":"submit"},"c":[{"a":{"var":"FORM_TYPE"},"c":[{"c":["http://jabber.org/protocol/pubsub#node_config"],"n":"value"}],"n":"field"},{"a":{"var":"pubsub#node_type"},"c":[{"c":["collection"],"n":"value"}],"n":"field"}],"n":"x","ns":"jabber:x:data"}],"n":"configure"}],"n":"pubsub","ns":"http://jabber.org/protocol/pubsub"}],"n":"iq"}
{"a":{"from":"pubsub.example","id":"2","to":"ann@a.example/1","type":"result"},"n":"iq"}
-
a.example makes
{"a":{"from":"ann@a.example/1","id":"3","to":"pubsub.example","type":"set"},"c":[{"c":[{"a":{"node":"mid"},"n":"create"},{"c":[{"a":{"type":"submit"},"c":[{"a":{"var":"FORM_TYPE"},"c":[{"c":["http://jabber.org/protocol/pubsub#node_config"],"n":"value"}],"n":"field"},{"a":{"var":"pubsub#node_type"},"c":[{"c":["collection"],"n":"value"}],"n":"field"},{"a":{"var":"pubsub#collection"},"c":[{"c":["top"],"n":"value"}],"n":"field"}],"n":"x","ns":"jabber:x:data"}],"n":"configure"}],"n":"pubsub","ns":"http://jabber.org/protocol/pubsub"}],"n":"iq"}
{"a":{"from":"pubsub.example","id":"3","to":"ann@a.example/1","type":"result"},"n":"iq"}
-
a.example makes
{"a":{"from":"ann@a.example/1","id":"4","to":"pubsub.example","type":"set"},"c":[{"c":[{"a":{"node":"leaf"},"n":"create"},{"c":[{"a":{"type":"submit"},"c":[{"a":{"var":"FORM_TYPE"},"c":[{"c":["http://jabber.org/protocol/pubsub#node_config"],"n":"value"}],"n":"field"},{"a":{"var":"pubsub#collection"},"c":[{"c":["mid"],"n":"value"}],"n":"field"}],"n":"x","ns":"jabber:x:data"}],"n":"configure"}],"n":"pubsub","ns":"http://jabber.org/protocol/pubsub"}],"n":"iq"}
{"a":{"from":"pubsub.example","id":"4","to":"ann@a.example/1","type":"result"},"n":"iq"}
-
b.example makes
{"a":{"from":"bob@b.example/1","id":"5","to":"pubsub.example","type":"set"},"c":[{"c":[{"a":{"jid":"bob@b.example","node":"top"},"n":"subscribe"}],"n":"pubsub","ns":"http://jabber.org/protocol/pubsub"}],"n":"iq"}
{"a":{"from":"pubsub.example","id":"5","to":"bob@b.example/1","type":"result"},"c":[{"c":[{"a":{"jid":"bob@b.example","node":"top","subscription":"subscribed"},"n":"subscription"}],"n":"pubsub","ns":"http://jabber.org/protocol/pubsub"}],"n":"iq"}
-
a.example
{"a":{"from":"ann@a.example/1","id":"6","to":"pubsub.example","type":"set"},"c":[{"c":[{"a":{"node":"top"},"c":[{"a":{"id":"m"},"c":[{"n":"entry","ns":"urn:t"}],"n":"item"}],"n":"publish"}],"n":"pubsub","ns":"http://jabber.org/protocol/pubsub"}],"n":"iq"}
{"a":{"from":"pubsub.example","id":"6","to":"ann@a.example/1","type":"error"},"c":[{"a":{"type":"cancel"},"c":[{"n":"feature-not-implemented","ns":"urn:ietf:params:xml:ns:xmpp-stanzas"},{"a":{"feature":"publish"},"n":"unsupported","ns":"http://jabber.org/protocol/pubsub#errors"}],"n":"error"}],"n":"iq"}
-
a.example
{"a":{"from":"ann@a.example/1","id":"7","to":"pubsub.example","type":"set"},"c":[{"c":[{"a":{"node":"n1"},"n":"create"},{"c":[{"a":{"type":"submit"},"c":[{"a":{"var":"FORM_TYPE"},"c":[{"c":["http://jabber.org/protocol/pubsub#node_config"],"n":"value"}],"n":"field"},{"a":{"var":"pubsub#collection"},"c":[{"c":["news"],"n":"value"}],"n":"field"}],"n":"x","ns":"jabber:x:data"}],"n":"configure"}],"n":"pubsub","ns":"http://jabber.org/protocol/pubsub"}],"n":"iq"}
{"a":{"from":"pubsub.example","id":"7","to":"ann@a.example/1","type":"error"},"c":[{"a":{"type":"modify"},"c":[{"n":"not-acceptable","ns":"urn:ietf:params:xml:ns:xmpp-stanzas"}],"n":"error"}],"n":"iq"}
-
a.example
{"a":{"from":"ann@a.example/1","id":"8","to":"pubsub.example","type":"set"},"c":[{"c":[{"a":{"node":"n1"},"n":"create"},{"c":[{"a":{"type":"submit"},"c":[{"a":{"var":"FORM_TYPE"},"c":[{"c":["http://jabber.org/protocol/pubsub#node_config"],"n":"value"}],"n":"field"},{"a":{"var":"pubsub#collection"},"c":[{"c":["nope"],"n":"value"}],"n":"field"}],"n":"x","ns":"jabber:x:data"}],"n":"configure"}],"n":"pubsub","ns":"http://jabber.org/protocol/pubsub"}],"n":"iq"}
{"a":{"from":"pubsub.example","id":"8","to":"ann@a.example/1","type":"error"},"c":[{"a":{"type":"cancel"},"c":[{"n":"item-not-found","ns":"urn:ietf:params:xml:ns:xmpp-stanzas"}],"n":"error"}],"n":"iq"}
-
a.example
{"a":{"from":"ann@a.example/1","id":"9","to":"pubsub.example","type":"set"},"c":[{"c":[{"a":{"node":"n1"},"n":"create"},{"c":[{"a":{"type":"submit"},"c":[{"a":{"var":"FORM_TYPE"},"c":[{"c":["http://jabber.org/protocol/pubsub#node_config"],"n":"value"}],"n":"field"},{"a":{"var":"pubsub#collection"},"c":[{"c":["n1"],"n":"value"}],"n":"field"}],"n":"x","ns":"jabber:x:data"}],"n":"configure"}],"n":"pubsub","ns":"http://jabber.org/protocol/pubsub"}],"n":"iq"}
{"a":{"from":"pubsub.example","id":"9","to":"ann@a.example/1","type":"error"},"c":[{"a":{"type":"cancel"},"c":[{"n":"item-not-found","ns":"urn:ietf:params:xml:ns:xmpp-stanzas"}],"n":"error"}],"n":"iq"}
-
b.example
{"a":{"from":"bob@b.example/1","id":"10","to":"pubsub.example","type":"set"},"c":[{"c":[{"a":{"node":"n1"},"n":"create"},{"c":[{"a":{"type":"submit"},"c":[{"a":{"var":"FORM_TYPE"},"c":[{"c":["http://jabber.org/protocol/pubsub#node_config"],"n":"value"}],"n":"field"},{"a":{"var":"pubsub#collection"},"c":[{"c":["mid"],"n":"value"}],"n":"field"}],"n":"x","ns":"jabber:x:data"}],"n":"configure"}],"n":"pubsub","ns":"http://jabber.org/protocol/pubsub"}],"n":"iq"}
{"a":{"from":"pubsub.example","id":"10","to":"bob@b.example/1","type":"error"},"c":[{"a":{"type":"auth"},"c":[{"n":"forbidden","ns":"urn:ietf:params:xml:ns:xmpp-stanzas"}],"n":"error"}],"n":"iq"}
-
a.example
{"a":{"from":"ann@a.example/1","id":"11","to":"pubsub.example","type":"set"},"c":[{"c":[{"a":{"node":"leaf"},"c":[{"a":{"type":"submit"},"c":[{"a":{"var":"FORM_TYPE"},"c":[{"c":["http://jabber.org/protocol/pubsub#node_config"],"n":"value"}],"n":"field"},{"a":{"var":"pubsub#collection"},"c":[{"c":["top"],"n":"value"}],"n":"field"}],"n":"x","ns":"jabber:x:data"}],"n":"configure"}],"n":"pubsub","ns":"http://jabber.org/protocol/pubsub#owner"}],"n":"iq"}
{"a":{"from":"pubsub.example","id":"11","to":"ann@a.example/1","type":"error"},"c":[{"a":{"type":"modify"},"c":[{"n":"not-acceptable","ns":"urn:ietf:params:xml:ns:xmpp-stanzas"}],"n":"error"}],"n":"iq"}
-
a.example
{"a":{"from":"ann@a.example/1","id":"12","to":"pubsub.example","type":"set"},"c":[{"c":[{"a":{"node":"leaf"},"c":[{"a":{"type":"submit"},"c":[{"a":{"var":"FORM_TYPE"},"c":[{"c":["http://jabber.org/protocol/pubsub#node_config"],"n":"value"}],"n":"field"},{"a":{"var":"pubsub#collection"},"c":[{"n":"value"}],"n":"field"}],"n":"x","ns":"jabber:x:data"}],"n":"configure"}],"n":"pubsub","ns":"http://jabber.org/protocol/pubsub#owner"}],"n":"iq"}
{"a":{"from":"pubsub.example","id":"12","to":"ann@a.example/1","type":"error"},"c":[{"a":{"type":"modify"},"c":[{"n":"not-acceptable","ns":"urn:ietf:params:xml:ns:xmpp-stanzas"}],"n":"error"}],"n":"iq"}
-
a.example makes
{"a":{"from":"ann@a.example/1","id":"13","to":"pubsub.example","type":"set"},"c":[{"c":[{"a":{"node":"leaf"},"c":[{"a":{"type":"submit"},"c":[{"a":{"var":"FORM_TYPE"},"c":[{"c":["http://jabber.org/protocol/pubsub#node_config"],"n":"value"}],"n":"field"},{"a":{"var":"pubsub#collection"},"c":[{"c":["mid"],"n":"value"}],"n":"field"},{"a":{"var":"pubsub#title"},"c":[{"c":["Leaf"],"n":"value"}],"n":"field"}],"n":"x","ns":"jabber:x:data"}],"n":"configure"}],"n":"pubsub","ns":"http://jabber.org/protocol/pubsub#owner"}],"n":"iq"}
{"a":{"from":"pubsub.example","id":"13","to":"ann@a.example/1","type":"result"},"n":"iq"}
-
a.example
{"a":{"from":"ann@a.example/1","id":"14","to":"pubsub.example","type":"set"},"c":[{"c":[{"a":{"node":"mid"},"n":"delete"}],"n":"pubsub","ns":"http://jabber.org/protocol/pubsub#owner"}],"n":"iq"}
{"a":{"from":"pubsub.example","id":"14","to":"ann@a.example/1","type":"error"},"c":[{"a":{"type":"modify"},"c":[{"n":"not-acceptable","ns":"urn:ietf:params:xml:ns:xmpp-stanzas"}],"n":"error"}],"n":"iq"}
-
b.example makes
{"a":{"from":"cid@b.example/1","id":"15","to":"pubsub.example","type":"set"},"c":[{"c":[{"a":{"jid":"cid@b.example","node":"mid"},"n":"subscribe"},{"c":[{"a":{"type":"submit"},"c":[{"a":{"var":"FORM_TYPE"},"c":[{"c":["http://jabber.org/protocol/pubsub#subscribe_options"],"n":"value"}],"n":"field"},{"a":{"var":"pubsub#subscription_type"},"c":[{"c":["nodes"],"n":"value"}],"n":"field"}],"n":"x","ns":"jabber:x:data"}],"n":"options"}],"n":"pubsub","ns":"http://jabber.org/protocol/pubsub"}],"n":"iq"}
{"a":{"from":"pubsub.example","id":"15","to":"cid@b.example/1","type":"result"},"c":[{"c":[{"a":{"jid":"cid@b.example","node":"mid","subscription":"subscribed"},"n":"subscription"}],"n":"pubsub","ns":"http://jabber.org/protocol/pubsub"}],"n":"iq"}
-
a.example makes
{"a":{"from":"ann@a.example/1","id":"16","to":"pubsub.example","type":"set"},"c":[{"c":[{"a":{"node":"n2"},"n":"create"},{"c":[{"a":{"type":"submit"},"c":[{"a":{"var":"FORM_TYPE"},"c":[{"c":["http://jabber.org/protocol/pubsub#node_config"],"n":"value"}],"n":"field"},{"a":{"var":"pubsub#collection"},"c":[{"c":["mid"],"n":"value"}],"n":"field"}],"n":"x","ns":"jabber:x:data"}],"n":"configure"}],"n":"pubsub","ns":"http://jabber.org/protocol/pubsub"}],"n":"iq"}
{"a":{"from":"pubsub.example","id":"16","to":"ann@a.example/1","type":"result"},"n":"iq"}
> cid@b.example 1 {"a":{"from":"pubsub.example","id":"n-1","to":"cid@b.example","type":"headline"},"c":[{"c":[{"a":{"node":"mid"},"c":[{"a":{"node":"n2"},"n":"associate"}],"n":"collection"}],"n":"event","ns":"http://jabber.org/protocol/pubsub#event"}],"n":"message"}
-
a.example
{"a":{"from":"ann@a.example/1","id":"17","to":"pubsub.example","type":"set"},"c":[{"c":[{"a":{"node":"mid"},"n":"delete"}],"n":"pubsub","ns":"http://jabber.org/protocol/pubsub#owner"}],"n":"iq"}
{"a":{"from":"pubsub.example","id":"17","to":"ann@a.example/1","type":"error"},"c":[{"a":{"type":"modify"},"c":[{"n":"not-acceptable","ns":"urn:ietf:params:xml:ns:xmpp-stanzas"}],"n":"error"}],"n":"iq"}
-
a.example
{"a":{"from":"ann@a.example/1","id":"18","to":"pubsub.example","type":"get"},"c":[{"c":[{"a":{"node":"n2"},"n":"configure"}],"n":"pubsub","ns":"http://jabber.org/protocol/pubsub#owner"}],"n":"iq"}
{"a":{"from":"pubsub.example","id":"18","to":"ann@a.example/1","type":"result"},"c":[{"c":[{"a":{"node":"n2"},"c":[{"a":{"type":"form"},"c":[{"a":{"type":"hidden","var":"FORM_TYPE"},"c":[{"c":["http://jabber.org/protocol/pubsub#node_config"],"n":"value"}],"n":"field"},{"a":{"type":"text-single","var":"pubsub#title"},"c":[{"n":"value"}],"n":"field"},{"a":{"type":"boolean","var":"pubsub#deliver_notifications"},"c":[{"c":["1"],"n":"value"}],"n":"field"},{"a":{"type":"boolean","var":"pubsub#deliver_payloads"},"c":[{"c":["1"],"n":"value"}],"n":"field"},{"a":{"type":"boolean","var":"pubsub#notify_config"},"c":[{"c":["0"],"n":"value"}],"n":"field"},{"a":{"type":"boolean","var":"pubsub#notify_delete"},"c":[{"c":["0"],"n":"value"}],"n":"field"},{"a":{"type":"boolean","var":"pubsub#notify_retract"},"c":[{"c":["0"],"n":"value"}],"n":"field"},{"a":{"type":"boolean","var":"pubsub#persist_items"},"c":[{"c":["1"],"n":"value"}],"n":"field"},{"a":{"type":"text-single","var":"pubsub#max_items"},"c":[{"c":["10"],"n":"value"}],"n":"field"},{"a":{"type":"list-single","var":"pubsub#access_model"},"c":[{"c":["open"],"n":"value"}],"n":"field"},{"a":{"type":"list-single","var":"pubsub#publish_model"},"c":[{"c":["publishers"],"n":"value"}],"n":"field"},{"a":{"type":"list-multi","var":"pubsub#roster_groups_allowed"},"n":"field"},{"a":{"type":"list-single","var":"pubsub#send_last_published_item"},"c":[{"c":["never"],"n":"value"}],"n":"field"},{"a":{"type":"boolean","var":"pubsub#presence_based_delivery"},"c":[{"c":["0"],"n":"value"}],"n":"field"},{"a":{"type":"list-single","var":"pubsub#notification_type"},"c":[{"c":["headline"],"n":"value"}],"n":"field"},{"a":{"type":"text-single","var":"pubsub#max_payload_size"},"c":[{"c":["65536"],"n":"value"}],"n":"field"},{"a":{"type":"list-single","var":"pubsub#node_type"},"c":[{"c":["leaf"],"n":"value"}],"n":"field"},{"a":{"type":"text-single","var":"pubsub#collection"},"c":[{"c":["mid"],"n":"value"}],"n":"field"}],"n":"x","ns":"jabber:x:data"}],"n":"configure"}],"n":"pubsub","ns":"http://jabber.org/protocol/pubsub#owner"}],"n":"iq"}
-
b.example
{"a":{"from":"bob@b.example/1","id":"19","to":"pubsub.example","type":"get"},"c":[{"a":{"node":"mid"},"n":"query","ns":"http://jabber.org/protocol/disco#info"}],"n":"iq"}
{"a":{"from":"pubsub.example","id":"19","to":"bob@b.example/1","type":"result"},"c":[{"a":{"node":"mid"},"c":[{"a":{"category":"pubsub","type":"collection"},"n":"identity"},{"a":{"var":"http://jabber.org/protocol/pubsub"},"n":"feature"}],"n":"query","ns":"http://jabber.org/protocol/disco#info"}],"n":"iq"}
-
b.example
{"a":{"from":"bob@b.example/1","id":"20","to":"pubsub.example","type":"get"},"c":[{"a":{"node":"mid"},"n":"query","ns":"http://jabber.org/protocol/disco#items"}],"n":"iq"}
{"a":{"from":"pubsub.example","id":"20","to":"bob@b.example/1","type":"result"},"c":[{"a":{"node":"mid"},"c":[{"a":{"jid":"pubsub.example","node":"leaf"},"n":"item"},{"a":{"jid":"pubsub.example","node":"n2"},"n":"item"}],"n":"query","ns":"http://jabber.org/protocol/disco#items"}],"n":"iq"}
-
a.example makes
{"a":{"from":"ann@a.example/1","id":"21","to":"pubsub.example","type":"set"},"c":[{"c":[{"a":{"node":"n2"},"n":"delete"}],"n":"pubsub","ns":"http://jabber.org/protocol/pubsub#owner"}],"n":"iq"}
{"a":{"from":"pubsub.example","id":"21","to":"ann@a.example/1","type":"result"},"n":"iq"}
-
a.example makes
{"a":{"from":"ann@a.example/1","id":"22","to":"pubsub.example","type":"set"},"c":[{"c":[{"a":{"node":"leaf"},"n":"delete"}],"n":"pubsub","ns":"http://jabber.org/protocol/pubsub#owner"}],"n":"iq"}
{"a":{"from":"pubsub.example","id":"22","to":"ann@a.example/1","type":"result"},"n":"iq"}
-
a.example makes
{"a":{"from":"ann@a.example/1","id":"23","to":"pubsub.example","type":"set"},"c":[{"c":[{"a":{"node":"mid"},"n":"delete"}],"n":"pubsub","ns":"http://jabber.org/protocol/pubsub#owner"}],"n":"iq"}
{"a":{"from":"pubsub.example","id":"23","to":"ann@a.example/1","type":"result"},"n":"iq"}
-
b.example
{"a":{"from":"bob@b.example/1","id":"24","to":"pubsub.example","type":"get"},"c":[{"n":"query","ns":"http://jabber.org/protocol/disco#items"}],"n":"iq"}
{"a":{"from":"pubsub.example","id":"24","to":"bob@b.example/1","type":"result"},"c":[{"c":[{"a":{"jid":"pubsub.example","node":"news"},"n":"item"},{"a":{"jid":"pubsub.example","node":"top"},"n":"item"}],"n":"query","ns":"http://jabber.org/protocol/disco#items"}],"n":"iq"}"#;
