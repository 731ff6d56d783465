// Personal nodes, and who reads them by the account's roster (XEP-0163 §3, §4).
// Made by tests/lines/hosts.py from the cases in tests/lines/hosts/rosters.txt.
pub const ROWS: &str = r#"a.example makes
{"a":{"from":"ann@a.example/1","id":"1","type":"set"},"c":[{"c":[{"a":{"node":"urn:t"},"c":[{"a":{"id":"m"},"c":[{"n":"entry","ns":"urn:t"}],"n":"item"}],"n":"publish"}],"n":"pubsub","ns":"http://jabber.org/protocol/pubsub"}],"n":"iq"}
{"a":{"from":"ann@a.example","id":"1","to":"ann@a.example/1","type":"result"},"c":[{"c":[{"a":{"node":"urn:t"},"c":[{"a":{"id":"m"},"n":"item"}],"n":"publish"}],"n":"pubsub","ns":"http://jabber.org/protocol/pubsub"}],"n":"iq"}
-
a.example
{"a":{"from":"ann@a.example/1","id":"2","type":"get"},"c":[{"c":[{"a":{"node":"urn:t"},"n":"configure"}],"n":"pubsub","ns":"http://jabber.org/protocol/pubsub#owner"}],"n":"iq"}
{"a":{"from":"ann@a.example","id":"2","to":"ann@a.example/1","type":"result"},"c":[{"c":[{"a":{"node":"urn:t"},"c":[{"a":{"type":"form"},"c":[{"a":{"type":"hidden","var":"FORM_TYPE"},"c":[{"c":["http://jabber.org/protocol/pubsub#node_config"],"n":"value"}],"n":"field"},{"a":{"type":"text-single","var":"pubsub#title"},"c":[{"n":"value"}],"n":"field"},{"a":{"type":"boolean","var":"pubsub#deliver_notifications"},"c":[{"c":["1"],"n":"value"}],"n":"field"},{"a":{"type":"boolean","var":"pubsub#deliver_payloads"},"c":[{"c":["1"],"n":"value"}],"n":"field"},{"a":{"type":"boolean","var":"pubsub#notify_config"},"c":[{"c":["0"],"n":"value"}],"n":"field"},{"a":{"type":"boolean","var":"pubsub#notify_delete"},"c":[{"c":["0"],"n":"value"}],"n":"field"},{"a":{"type":"boolean","var":"pubsub#notify_retract"},"c":[{"c":["0"],"n":"value"}],"n":"field"},{"a":{"type":"boolean","var":"pubsub#persist_items"},"c":[{"c":["1"],"n":"value"}],"n":"field"},{"a":{"type":"text-single","var":"pubsub#max_items"},"c":[{"c":["1"],"n":"value"}],"n":"field"},{"a":{"type":"list-single","var":"pubsub#access_model"},"c":[{"c":["presence"],"n":"value"}],"n":"field"},{"a":{"type":"list-single","var":"pubsub#publish_model"},"c":[{"c":["publishers"],"n":"value"}],"n":"field"},{"a":{"type":"list-multi","var":"pubsub#roster_groups_allowed"},"n":"field"},{"a":{"type":"list-single","var":"pubsub#send_last_published_item"},"c":[{"c":["on_sub_and_presence"],"n":"value"}],"n":"field"},{"a":{"type":"boolean","var":"pubsub#presence_based_delivery"},"c":[{"c":["0"],"n":"value"}],"n":"field"},{"a":{"type":"list-single","var":"pubsub#notification_type"},"c":[{"c":["headline"],"n":"value"}],"n":"field"},{"a":{"type":"text-single","var":"pubsub#max_payload_size"},"c":[{"c":["65536"],"n":"value"}],"n":"field"},{"a":{"type":"list-single","var":"pubsub#node_type"},"c":[{"c":["leaf"],"n":"value"}],"n":"field"},{"a":{"type":"text-single","var":"pubsub#collection"},"c":[{"n":"value"}],"n":"field"}],"n":"x","ns":"jabber:x:data"}],"n":"configure"}],"n":"pubsub","ns":"http://jabber.org/protocol/pubsub#owner"}],"n":"iq"}
-
a.example makes
{"a":{"from":"ann@a.example/1","id":"3","to":"pubsub.example","type":"set"},"c":[{"c":[{"a":{"jid":"bob@b.example","subscription":"to"},"n":"item"}],"n":"query","ns":"jabber:iq:roster"}],"n":"iq"}
{"a":{"from":"pubsub.example","id":"3","to":"ann@a.example/1","type":"result"},"n":"iq"}
-
b.example
{"a":{"from":"bob@b.example/1","id":"4","to":"ann@a.example","type":"get"},"c":[{"c":[{"a":{"node":"urn:t"},"n":"items"}],"n":"pubsub","ns":"http://jabber.org/protocol/pubsub"}],"n":"iq"}
{"a":{"from":"ann@a.example","id":"4","to":"bob@b.example/1","type":"error"},"c":[{"a":{"type":"auth"},"c":[{"n":"not-authorized","ns":"urn:ietf:params:xml:ns:xmpp-stanzas"},{"n":"presence-subscription-required","ns":"http://jabber.org/protocol/pubsub#errors"}],"n":"error"}],"n":"iq"}
-
a.example
{"a":{"from":"ann@a.example/1","id":"5","to":"pubsub.example","type":"set"},"c":[{"c":[{"a":{"jid":"bob@b.example","subscription":"to"},"n":"item"}],"n":"query","ns":"jabber:iq:roster"}],"n":"iq"}
{"a":{"from":"pubsub.example","id":"5","to":"ann@a.example/1","type":"result"},"n":"iq"}
-
a.example makes
{"a":{"from":"ann@a.example/1","id":"6","to":"pubsub.example","type":"set"},"c":[{"c":[{"a":{"jid":"bob@b.example","subscription":"from"},"n":"item"}],"n":"query","ns":"jabber:iq:roster"}],"n":"iq"}
{"a":{"from":"pubsub.example","id":"6","to":"ann@a.example/1","type":"result"},"n":"iq"}
-
b.example
{"a":{"from":"bob@b.example/1","id":"7","to":"ann@a.example","type":"get"},"c":[{"c":[{"a":{"node":"urn:t"},"n":"items"}],"n":"pubsub","ns":"http://jabber.org/protocol/pubsub"}],"n":"iq"}
{"a":{"from":"ann@a.example","id":"7","to":"bob@b.example/1","type":"result"},"c":[{"c":[{"a":{"node":"urn:t"},"c":[{"a":{"id":"m"},"c":[{"n":"entry","ns":"urn:t"}],"n":"item"}],"n":"items"}],"n":"pubsub","ns":"http://jabber.org/protocol/pubsub"}],"n":"iq"}
-
a.example makes
{"a":{"from":"ann@a.example/1","id":"8","type":"set"},"c":[{"c":[{"a":{"node":"urn:m"},"c":[{"a":{"id":"m"},"c":[{"n":"entry","ns":"urn:t"}],"n":"item"}],"n":"publish"},{"c":[{"a":{"type":"submit"},"c":[{"a":{"var":"FORM_TYPE"},"c":[{"c":["http://jabber.org/protocol/pubsub#publish-options"],"n":"value"}],"n":"field"},{"a":{"var":"pubsub#access_model"},"c":[{"c":["roster"],"n":"value"}],"n":"field"},{"a":{"var":"pubsub#roster_groups_allowed"},"c":[{"c":["h"],"n":"value"}],"n":"field"}],"n":"x","ns":"jabber:x:data"}],"n":"publish-options"}],"n":"pubsub","ns":"http://jabber.org/protocol/pubsub"}],"n":"iq"}
{"a":{"from":"ann@a.example","id":"8","to":"ann@a.example/1","type":"result"},"c":[{"c":[{"a":{"node":"urn:m"},"c":[{"a":{"id":"m"},"n":"item"}],"n":"publish"}],"n":"pubsub","ns":"http://jabber.org/protocol/pubsub"}],"n":"iq"}
-
a.example makes
{"a":{"from":"ann@a.example/1","id":"9","to":"ann@a.example","type":"set"},"c":[{"c":[{"a":{"jid":"bob@b.example","subscription":"both"},"c":[{"c":["g"],"n":"group"}],"n":"item"}],"n":"query","ns":"jabber:iq:roster"}],"n":"iq"}
{"a":{"from":"ann@a.example","id":"9","to":"ann@a.example/1","type":"result"},"n":"iq"}
-
b.example
{"a":{"from":"bob@b.example/1","id":"10","to":"ann@a.example","type":"get"},"c":[{"c":[{"a":{"node":"urn:m"},"n":"items"}],"n":"pubsub","ns":"http://jabber.org/protocol/pubsub"}],"n":"iq"}
{"a":{"from":"ann@a.example","id":"10","to":"bob@b.example/1","type":"error"},"c":[{"a":{"type":"auth"},"c":[{"n":"not-authorized","ns":"urn:ietf:params:xml:ns:xmpp-stanzas"},{"n":"not-in-roster-group","ns":"http://jabber.org/protocol/pubsub#errors"}],"n":"error"}],"n":"iq"}
-
a.example makes
{"a":{"from":"ann@a.example/1","id":"11","to":"ann@a.example","type":"set"},"c":[{"c":[{"a":{"jid":"bob@b.example","subscription":"both"},"c":[{"c":["g"],"n":"group"},{"c":["h"],"n":"group"}],"n":"item"}],"n":"query","ns":"jabber:iq:roster"}],"n":"iq"}
{"a":{"from":"ann@a.example","id":"11","to":"ann@a.example/1","type":"result"},"n":"iq"}
-
b.example
{"a":{"from":"bob@b.example/1","id":"12","to":"ann@a.example","type":"get"},"c":[{"c":[{"a":{"node":"urn:m"},"n":"items"}],"n":"pubsub","ns":"http://jabber.org/protocol/pubsub"}],"n":"iq"}
{"a":{"from":"ann@a.example","id":"12","to":"bob@b.example/1","type":"result"},"c":[{"c":[{"a":{"node":"urn:m"},"c":[{"a":{"id":"m"},"c":[{"n":"entry","ns":"urn:t"}],"n":"item"}],"n":"items"}],"n":"pubsub","ns":"http://jabber.org/protocol/pubsub"}],"n":"iq"}
-
a.example
{"a":{"from":"ann@a.example/1","id":"13","type":"set"},"c":[{"c":[{"a":{"node":"urn:m"},"c":[{"a":{"id":"m"},"c":[{"n":"entry","ns":"urn:t"}],"n":"item"}],"n":"publish"},{"c":[{"a":{"type":"submit"},"c":[{"a":{"var":"FORM_TYPE"},"c":[{"c":["http://jabber.org/protocol/pubsub#publish-options"],"n":"value"}],"n":"field"},{"a":{"var":"pubsub#access_model"},"c":[{"c":["open"],"n":"value"}],"n":"field"}],"n":"x","ns":"jabber:x:data"}],"n":"publish-options"}],"n":"pubsub","ns":"http://jabber.org/protocol/pubsub"}],"n":"iq"}
{"a":{"from":"ann@a.example","id":"13","to":"ann@a.example/1","type":"error"},"c":[{"a":{"type":"cancel"},"c":[{"n":"conflict","ns":"urn:ietf:params:xml:ns:xmpp-stanzas"},{"n":"precondition-not-met","ns":"http://jabber.org/protocol/pubsub#errors"}],"n":"error"}],"n":"iq"}
-
b.example
{"a":{"from":"bob@b.example/1","id":"14","to":"ann@a.example","type":"set"},"c":[{"c":[{"a":{"node":"urn:z"},"c":[{"a":{"id":"m"},"c":[{"n":"entry","ns":"urn:t"}],"n":"item"}],"n":"publish"}],"n":"pubsub","ns":"http://jabber.org/protocol/pubsub"}],"n":"iq"}
{"a":{"from":"ann@a.example","id":"14","to":"bob@b.example/1","type":"error"},"c":[{"a":{"type":"cancel"},"c":[{"n":"item-not-found","ns":"urn:ietf:params:xml:ns:xmpp-stanzas"}],"n":"error"}],"n":"iq"}
-
b.example
{"a":{"from":"bob@b.example/1","id":"15","to":"ann@a.example","type":"get"},"c":[{"c":[{"a":{"node":"urn:z"},"n":"items"}],"n":"pubsub","ns":"http://jabber.org/protocol/pubsub"}],"n":"iq"}
{"a":{"from":"ann@a.example","id":"15","to":"bob@b.example/1","type":"error"},"c":[{"a":{"type":"cancel"},"c":[{"n":"item-not-found","ns":"urn:ietf:params:xml:ns:xmpp-stanzas"}],"n":"error"}],"n":"iq"}
-
b.example
{"a":{"from":"bob@b.example/1","id":"16","to":"ann@a.example","type":"set"},"c":[{"c":[{"a":{"jid":"cid@b.example","subscription":"both"},"n":"item"}],"n":"query","ns":"jabber:iq:roster"}],"n":"iq"}
{"a":{"from":"ann@a.example","id":"16","to":"bob@b.example/1","type":"error"},"c":[{"a":{"type":"auth"},"c":[{"n":"forbidden","ns":"urn:ietf:params:xml:ns:xmpp-stanzas"}],"n":"error"}],"n":"iq"}
-
b.example
{"a":{"from":"bob@b.example/1","id":"17","to":"ann@a.example","type":"set"},"c":[{"c":[{"a":{"node":"urn:z"},"n":"create"}],"n":"pubsub","ns":"http://jabber.org/protocol/pubsub"}],"n":"iq"}
{"a":{"from":"ann@a.example","id":"17","to":"bob@b.example/1","type":"error"},"c":[{"a":{"type":"auth"},"c":[{"n":"forbidden","ns":"urn:ietf:params:xml:ns:xmpp-stanzas"}],"n":"error"}],"n":"iq"}
-
b.example makes
{"a":{"from":"bob@b.example/1","id":"18","to":"ann@a.example","type":"set"},"c":[{"c":[{"a":{"jid":"bob@b.example","node":"urn:t"},"n":"subscribe"}],"n":"pubsub","ns":"http://jabber.org/protocol/pubsub"}],"n":"iq"}
{"a":{"from":"ann@a.example","id":"18","to":"bob@b.example/1","type":"result"},"c":[{"c":[{"a":{"jid":"bob@b.example","node":"urn:t","subscription":"subscribed"},"n":"subscription"}],"n":"pubsub","ns":"http://jabber.org/protocol/pubsub"}],"n":"iq"}
> bob@b.example 1 {"a":{"from":"ann@a.example","id":"n-1","to":"bob@b.example","type":"headline"},"c":[{"c":[{"a":{"node":"urn:t"},"c":[{"a":{"id":"m"},"c":[{"n":"entry","ns":"urn:t"}],"n":"item"}],"n":"items"}],"n":"event","ns":"http://jabber.org/protocol/pubsub#event"}],"n":"message"}
-
a.example makes
{"a":{"from":"ann@a.example/1","id":"19","to":"ann@a.example","type":"set"},"c":[{"c":[{"a":{"jid":"bob@b.example","subscription":"remove"},"n":"item"}],"n":"query","ns":"jabber:iq:roster"}],"n":"iq"}
{"a":{"from":"ann@a.example","id":"19","to":"ann@a.example/1","type":"result"},"n":"iq"}
-
b.example
{"a":{"from":"bob@b.example/1","id":"20","to":"ann@a.example","type":"get"},"c":[{"c":[{"a":{"node":"urn:t"},"n":"items"}],"n":"pubsub","ns":"http://jabber.org/protocol/pubsub"}],"n":"iq"}
{"a":{"from":"ann@a.example","id":"20","to":"bob@b.example/1","type":"error"},"c":[{"a":{"type":"auth"},"c":[{"n":"not-authorized","ns":"urn:ietf:params:xml:ns:xmpp-stanzas"},{"n":"presence-subscription-required","ns":"http://jabber.org/protocol/pubsub#errors"}],"n":"error"}],"n":"iq"}
-
b.example
{"a":{"from":"bob@b.example/1","id":"21","to":"ann@a.example","type":"get"},"c":[{"c":[{"n":"subscriptions"}],"n":"pubsub","ns":"http://jabber.org/protocol/pubsub"}],"n":"iq"}
{"a":{"from":"ann@a.example","id":"21","to":"bob@b.example/1","type":"result"},"c":[{"c":[{"c":[{"a":{"jid":"bob@b.example","node":"urn:t","subscription":"subscribed"},"n":"subscription"}],"n":"subscriptions"}],"n":"pubsub","ns":"http://jabber.org/protocol/pubsub"}],"n":"iq"}
-
a.example
{"a":{"from":"ann@a.example/1","id":"22","type":"get"},"c":[{"c":[{"a":{"node":"urn:t"},"n":"affiliations"}],"n":"pubsub","ns":"http://jabber.org/protocol/pubsub#owner"}],"n":"iq"}
{"a":{"from":"ann@a.example","id":"22","to":"ann@a.example/1","type":"result"},"c":[{"c":[{"a":{"node":"urn:t"},"c":[{"a":{"affiliation":"owner","jid":"ann@a.example"},"n":"affiliation"}],"n":"affiliations"}],"n":"pubsub","ns":"http://jabber.org/protocol/pubsub#owner"}],"n":"iq"}
-
a.example
{"a":{"from":"ann@a.example/1","id":"23","type":"set"},"c":[{"c":[{"a":{"node":"urn:t"},"c":[{"a":{"affiliation":"none","jid":"ann@a.example"},"n":"affiliation"}],"n":"affiliations"}],"n":"pubsub","ns":"http://jabber.org/protocol/pubsub#owner"}],"n":"iq"}
{"a":{"from":"ann@a.example","id":"23","to":"ann@a.example/1","type":"error"},"c":[{"a":{"type":"modify"},"c":[{"n":"not-acceptable","ns":"urn:ietf:params:xml:ns:xmpp-stanzas"}],"n":"error"}],"n":"iq"}
-
a.example makes
{"a":{"from":"ann@a.example/1","id":"24","to":"pubsub.example","type":"set"},"c":[{"c":[{"a":{"node":"near"},"n":"create"},{"c":[{"a":{"type":"submit"},"c":[{"a":{"var":"FORM_TYPE"},"c":[{"c":["http://jabber.org/protocol/pubsub#node_config"],"n":"value"}],"n":"field"},{"a":{"var":"pubsub#access_model"},"c":[{"c":["presence"],"n":"value"}],"n":"field"},{"a":{"var":"pubsub#presence_based_delivery"},"c":[{"c":["1"],"n":"value"}],"n":"field"}],"n":"x","ns":"jabber:x:data"}],"n":"configure"}],"n":"pubsub","ns":"http://jabber.org/protocol/pubsub"}],"n":"iq"}
{"a":{"from":"pubsub.example","id":"24","to":"ann@a.example/1","type":"result"},"n":"iq"}
-
b.example
{"a":{"from":"bob@b.example/1","id":"25","to":"pubsub.example","type":"get"},"c":[{"c":[{"a":{"node":"near"},"n":"items"}],"n":"pubsub","ns":"http://jabber.org/protocol/pubsub"}],"n":"iq"}
{"a":{"from":"pubsub.example","id":"25","to":"bob@b.example/1","type":"error"},"c":[{"a":{"type":"auth"},"c":[{"n":"not-authorized","ns":"urn:ietf:params:xml:ns:xmpp-stanzas"},{"n":"presence-subscription-required","ns":"http://jabber.org/protocol/pubsub#errors"}],"n":"error"}],"n":"iq"}
-
b.example
{"a":{"from":"bob@b.example/1","id":"26","to":"pubsub.example","type":"set"},"c":[{"c":[{"a":{"jid":"bob@b.example","node":"near"},"n":"subscribe"}],"n":"pubsub","ns":"http://jabber.org/protocol/pubsub"}],"n":"iq"}
{"a":{"from":"pubsub.example","id":"26","to":"bob@b.example/1","type":"error"},"c":[{"a":{"type":"auth"},"c":[{"n":"not-authorized","ns":"urn:ietf:params:xml:ns:xmpp-stanzas"},{"n":"presence-subscription-required","ns":"http://jabber.org/protocol/pubsub#errors"}],"n":"error"}],"n":"iq"}
-
a.example makes
{"a":{"from":"ann@a.example/1","id":"27","to":"pubsub.example","type":"set"},"c":[{"c":[{"a":{"jid":"bob@b.example","subscription":"both"},"n":"item"}],"n":"query","ns":"jabber:iq:roster"}],"n":"iq"}
{"a":{"from":"pubsub.example","id":"27","to":"ann@a.example/1","type":"result"},"n":"iq"}
-
b.example
{"a":{"from":"bob@b.example/1","id":"28","to":"pubsub.example","type":"get"},"c":[{"c":[{"a":{"node":"near"},"n":"items"}],"n":"pubsub","ns":"http://jabber.org/protocol/pubsub"}],"n":"iq"}
{"a":{"from":"pubsub.example","id":"28","to":"bob@b.example/1","type":"result"},"c":[{"c":[{"a":{"node":"near"},"n":"items"}],"n":"pubsub","ns":"http://jabber.org/protocol/pubsub"}],"n":"iq"}"#;
