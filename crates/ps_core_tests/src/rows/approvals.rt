// A subscription that an owner decides or sets, and who is told of it (XEP-0060 §6.1.7, §8.6, §8.8).
// Made by tests/lines/hosts.py from the cases in tests/lines/hosts/approvals.txt.
pub const ROWS: &str = r#"a.example makes
{"a":{"from":"ann@a.example/1","id":"1","to":"pubsub.example","type":"set"},"c":[{"c":[{"a":{"node":"q"},"n":"create"},{"c":[{"a":{"type":"submit"},"c":[{"a":{"var":"FORM_TYPE"},"c":[{"c":["http://jabber.org/protocol/pubsub#node_config"],"n":"value"}],"n":"field"},{"a":{"var":"pubsub#access_model"},"c":[{"c":["authorize"],"n":"value"}],"n":"field"}],"n":"x","ns":"jabber:x:data"}],"n":"configure"}],"n":"pubsub","ns":"http://jabber.org/protocol/pubsub"}],"n":"iq"}
{"a":{"from":"pubsub.example","id":"1","to":"ann@a.example/1","type":"result"},"n":"iq"}
-
b.example makes
{"a":{"from":"bob@b.example/1","id":"2","to":"pubsub.example","type":"set"},"c":[{"c":[{"a":{"jid":"bob@b.example","node":"q"},"n":"subscribe"}],"n":"pubsub","ns":"http://jabber.org/protocol/pubsub"}],"n":"iq"}
{"a":{"from":"pubsub.example","id":"2","to":"bob@b.example/1","type":"result"},"c":[{"c":[{"a":{"jid":"bob@b.example","node":"q","subscription":"pending"},"n":"subscription"}],"n":"pubsub","ns":"http://jabber.org/protocol/pubsub"}],"n":"iq"}
> ann@a.example 1 {"a":{"from":"pubsub.example","id":"n-1","to":"ann@a.example"},"c":[{"a":{"type":"form"},"c":[{"a":{"type":"hidden","var":"FORM_TYPE"},"c":[{"c":["http://jabber.org/protocol/pubsub#subscribe_authorization"],"n":"value"}],"n":"field"},{"a":{"type":"text-single","var":"pubsub#node"},"c":[{"c":["q"],"n":"value"}],"n":"field"},{"a":{"type":"jid-single","var":"pubsub#subscriber_jid"},"c":[{"c":["bob@b.example"],"n":"value"}],"n":"field"},{"a":{"type":"boolean","var":"pubsub#allow"},"c":[{"c":["0"],"n":"value"}],"n":"field"}],"n":"x","ns":"jabber:x:data"}],"n":"message"}
-
b.example
{"a":{"from":"bob@b.example/1","id":"3","to":"pubsub.example","type":"set"},"c":[{"c":[{"a":{"jid":"bob@b.example","node":"q"},"n":"subscribe"}],"n":"pubsub","ns":"http://jabber.org/protocol/pubsub"}],"n":"iq"}
{"a":{"from":"pubsub.example","id":"3","to":"bob@b.example/1","type":"error"},"c":[{"a":{"type":"auth"},"c":[{"n":"not-authorized","ns":"urn:ietf:params:xml:ns:xmpp-stanzas"},{"n":"pending-subscription","ns":"http://jabber.org/protocol/pubsub#errors"}],"n":"error"}],"n":"iq"}
-
a.example makes
{"a":{"from":"ann@a.example/1","id":"4","to":"pubsub.example","type":"set"},"c":[{"c":[{"a":{"node":"q"},"c":[{"a":{"id":"x"},"c":[{"n":"entry","ns":"urn:t"}],"n":"item"}],"n":"publish"}],"n":"pubsub","ns":"http://jabber.org/protocol/pubsub"}],"n":"iq"}
{"a":{"from":"pubsub.example","id":"4","to":"ann@a.example/1","type":"result"},"c":[{"c":[{"a":{"node":"q"},"c":[{"a":{"id":"x"},"n":"item"}],"n":"publish"}],"n":"pubsub","ns":"http://jabber.org/protocol/pubsub"}],"n":"iq"}
-
a.example makes
{"a":{"from":"ann@a.example/1","id":"5","to":"pubsub.example"},"c":[{"a":{"type":"submit"},"c":[{"a":{"var":"FORM_TYPE"},"c":[{"c":["http://jabber.org/protocol/pubsub#subscribe_authorization"],"n":"value"}],"n":"field"},{"a":{"var":"pubsub#node"},"c":[{"c":["q"],"n":"value"}],"n":"field"},{"a":{"var":"pubsub#subscriber_jid"},"c":[{"c":["bob@b.example"],"n":"value"}],"n":"field"},{"a":{"var":"pubsub#allow"},"c":[{"c":["1"],"n":"value"}],"n":"field"}],"n":"x","ns":"jabber:x:data"}],"n":"message"}

> bob@b.example 1 {"a":{"from":"pubsub.example","id":"n-1","to":"bob@b.example"},"c":[{"c":[{"a":{"jid":"bob@b.example","node":"q","subscription":"subscribed"},"n":"subscription"}],"n":"pubsub","ns":"http://jabber.org/protocol/pubsub"}],"n":"message"}
-
a.example makes
{"a":{"from":"ann@a.example/1","id":"6","to":"pubsub.example","type":"set"},"c":[{"c":[{"a":{"node":"q"},"c":[{"a":{"id":"y"},"c":[{"n":"entry","ns":"urn:t"}],"n":"item"}],"n":"publish"}],"n":"pubsub","ns":"http://jabber.org/protocol/pubsub"}],"n":"iq"}
{"a":{"from":"pubsub.example","id":"6","to":"ann@a.example/1","type":"result"},"c":[{"c":[{"a":{"node":"q"},"c":[{"a":{"id":"y"},"n":"item"}],"n":"publish"}],"n":"pubsub","ns":"http://jabber.org/protocol/pubsub"}],"n":"iq"}
> bob@b.example 2 {"a":{"from":"pubsub.example","id":"n-2","to":"bob@b.example","type":"headline"},"c":[{"c":[{"a":{"node":"q"},"c":[{"a":{"id":"y"},"c":[{"n":"entry","ns":"urn:t"}],"n":"item"}],"n":"items"}],"n":"event","ns":"http://jabber.org/protocol/pubsub#event"}],"n":"message"}
-
a.example makes
{"a":{"from":"ann@a.example/1","id":"7","to":"pubsub.example","type":"set"},"c":[{"c":[{"a":{"node":"q"},"c":[{"a":{"affiliation":"owner","jid":"dot@b.example"},"n":"affiliation"}],"n":"affiliations"}],"n":"pubsub","ns":"http://jabber.org/protocol/pubsub#owner"}],"n":"iq"}
{"a":{"from":"pubsub.example","id":"7","to":"ann@a.example/1","type":"result"},"n":"iq"}
-
a.example at 1000000000 makes
{"a":{"from":"ann@a.example/1","id":"8","to":"pubsub.example","type":"set"},"c":[{"c":[{"a":{"node":"q"},"c":[{"a":{"id":"z"},"c":[{"n":"entry","ns":"urn:t"}],"n":"item"}],"n":"publish"}],"n":"pubsub","ns":"http://jabber.org/protocol/pubsub"}],"n":"iq"}
{"a":{"from":"pubsub.example","id":"8","to":"ann@a.example/1","type":"result"},"c":[{"c":[{"a":{"node":"q"},"c":[{"a":{"id":"z"},"n":"item"}],"n":"publish"}],"n":"pubsub","ns":"http://jabber.org/protocol/pubsub"}],"n":"iq"}
> bob@b.example 3 {"a":{"from":"pubsub.example","id":"n-3","to":"bob@b.example","type":"headline"},"c":[{"c":[{"a":{"node":"q"},"c":[{"a":{"id":"z"},"c":[{"n":"entry","ns":"urn:t"}],"n":"item"}],"n":"items"}],"n":"event","ns":"http://jabber.org/protocol/pubsub#event"}],"n":"message"}
-
a.example makes
{"a":{"from":"ann@a.example/1","id":"9","to":"pubsub.example","type":"set"},"c":[{"c":[{"a":{"node":"q"},"c":[{"a":{"type":"submit"},"c":[{"a":{"var":"FORM_TYPE"},"c":[{"c":["http://jabber.org/protocol/pubsub#node_config"],"n":"value"}],"n":"field"},{"a":{"var":"pubsub#send_last_published_item"},"c":[{"c":["on_sub"],"n":"value"}],"n":"field"}],"n":"x","ns":"jabber:x:data"}],"n":"configure"}],"n":"pubsub","ns":"http://jabber.org/protocol/pubsub#owner"}],"n":"iq"}
{"a":{"from":"pubsub.example","id":"9","to":"ann@a.example/1","type":"result"},"n":"iq"}
-
b.example makes
{"a":{"from":"cid@b.example/1","id":"10","to":"pubsub.example","type":"set"},"c":[{"c":[{"a":{"jid":"cid@b.example/1","node":"q"},"n":"subscribe"}],"n":"pubsub","ns":"http://jabber.org/protocol/pubsub"}],"n":"iq"}
{"a":{"from":"pubsub.example","id":"10","to":"cid@b.example/1","type":"result"},"c":[{"c":[{"a":{"jid":"cid@b.example/1","node":"q","subscription":"pending"},"n":"subscription"}],"n":"pubsub","ns":"http://jabber.org/protocol/pubsub"}],"n":"iq"}
> ann@a.example 2 {"a":{"from":"pubsub.example","id":"n-2","to":"ann@a.example"},"c":[{"a":{"type":"form"},"c":[{"a":{"type":"hidden","var":"FORM_TYPE"},"c":[{"c":["http://jabber.org/protocol/pubsub#subscribe_authorization"],"n":"value"}],"n":"field"},{"a":{"type":"text-single","var":"pubsub#node"},"c":[{"c":["q"],"n":"value"}],"n":"field"},{"a":{"type":"jid-single","var":"pubsub#subscriber_jid"},"c":[{"c":["cid@b.example/1"],"n":"value"}],"n":"field"},{"a":{"type":"boolean","var":"pubsub#allow"},"c":[{"c":["0"],"n":"value"}],"n":"field"}],"n":"x","ns":"jabber:x:data"}],"n":"message"}
> dot@b.example 1 {"a":{"from":"pubsub.example","id":"n-1","to":"dot@b.example"},"c":[{"a":{"type":"form"},"c":[{"a":{"type":"hidden","var":"FORM_TYPE"},"c":[{"c":["http://jabber.org/protocol/pubsub#subscribe_authorization"],"n":"value"}],"n":"field"},{"a":{"type":"text-single","var":"pubsub#node"},"c":[{"c":["q"],"n":"value"}],"n":"field"},{"a":{"type":"jid-single","var":"pubsub#subscriber_jid"},"c":[{"c":["cid@b.example/1"],"n":"value"}],"n":"field"},{"a":{"type":"boolean","var":"pubsub#allow"},"c":[{"c":["0"],"n":"value"}],"n":"field"}],"n":"x","ns":"jabber:x:data"}],"n":"message"}
-
b.example makes
{"a":{"from":"dot@b.example/1","id":"11","to":"pubsub.example"},"c":[{"a":{"type":"submit"},"c":[{"a":{"var":"FORM_TYPE"},"c":[{"c":["http://jabber.org/protocol/pubsub#subscribe_authorization"],"n":"value"}],"n":"field"},{"a":{"var":"pubsub#node"},"c":[{"c":["q"],"n":"value"}],"n":"field"},{"a":{"var":"pubsub#subscriber_jid"},"c":[{"c":["cid@b.example/1"],"n":"value"}],"n":"field"},{"a":{"var":"pubsub#allow"},"c":[{"c":["true"],"n":"value"}],"n":"field"}],"n":"x","ns":"jabber:x:data"}],"n":"message"}

> cid@b.example/1 1 {"a":{"from":"pubsub.example","id":"n-1","to":"cid@b.example/1"},"c":[{"c":[{"a":{"jid":"cid@b.example/1","node":"q","subscription":"subscribed"},"n":"subscription"}],"n":"pubsub","ns":"http://jabber.org/protocol/pubsub"}],"n":"message"}
> cid@b.example/1 2 {"a":{"from":"pubsub.example","id":"n-2","to":"cid@b.example/1","type":"headline"},"c":[{"c":[{"a":{"node":"q"},"c":[{"a":{"id":"z"},"c":[{"n":"entry","ns":"urn:t"}],"n":"item"}],"n":"items"}],"n":"event","ns":"http://jabber.org/protocol/pubsub#event"},{"a":{"stamp":"2001-09-09T01:46:40Z"},"n":"delay","ns":"urn:xmpp:delay"}],"n":"message"}
-
a.example
{"a":{"from":"ann@a.example/1","id":"12","to":"pubsub.example"},"c":[{"a":{"type":"submit"},"c":[{"a":{"var":"FORM_TYPE"},"c":[{"c":["http://jabber.org/protocol/pubsub#subscribe_authorization"],"n":"value"}],"n":"field"},{"a":{"var":"pubsub#node"},"c":[{"c":["q"],"n":"value"}],"n":"field"},{"a":{"var":"pubsub#subscriber_jid"},"c":[{"c":["cid@b.example/1"],"n":"value"}],"n":"field"},{"a":{"var":"pubsub#allow"},"c":[{"c":["1"],"n":"value"}],"n":"field"}],"n":"x","ns":"jabber:x:data"}],"n":"message"}
{"a":{"from":"pubsub.example","id":"12","to":"ann@a.example/1","type":"error"},"c":[{"a":{"type":"cancel"},"c":[{"n":"unexpected-request","ns":"urn:ietf:params:xml:ns:xmpp-stanzas"},{"n":"not-subscribed","ns":"http://jabber.org/protocol/pubsub#errors"}],"n":"error"}],"n":"message"}
-
a.example makes
{"a":{"from":"ann@a.example/1","id":"13","to":"pubsub.example","type":"set"},"c":[{"c":[{"a":{"node":"open"},"n":"create"},{"c":[{"a":{"type":"submit"},"c":[{"a":{"var":"FORM_TYPE"},"c":[{"c":["http://jabber.org/protocol/pubsub#node_config"],"n":"value"}],"n":"field"},{"a":{"var":"pubsub#send_last_published_item"},"c":[{"c":["on_sub_and_presence"],"n":"value"}],"n":"field"}],"n":"x","ns":"jabber:x:data"}],"n":"configure"}],"n":"pubsub","ns":"http://jabber.org/protocol/pubsub"}],"n":"iq"}
{"a":{"from":"pubsub.example","id":"13","to":"ann@a.example/1","type":"result"},"n":"iq"}
-
b.example makes
{"a":{"from":"bob@b.example/1","id":"14","to":"pubsub.example","type":"set"},"c":[{"c":[{"a":{"jid":"bob@b.example","node":"open"},"n":"subscribe"}],"n":"pubsub","ns":"http://jabber.org/protocol/pubsub"}],"n":"iq"}
{"a":{"from":"pubsub.example","id":"14","to":"bob@b.example/1","type":"result"},"c":[{"c":[{"a":{"jid":"bob@b.example","node":"open","subscription":"subscribed"},"n":"subscription"}],"n":"pubsub","ns":"http://jabber.org/protocol/pubsub"}],"n":"iq"}
-
a.example makes
{"a":{"from":"ann@a.example/1","id":"15","to":"pubsub.example","type":"set"},"c":[{"c":[{"a":{"node":"open"},"c":[{"a":{"id":"m"},"c":[{"n":"entry","ns":"urn:t"}],"n":"item"}],"n":"publish"}],"n":"pubsub","ns":"http://jabber.org/protocol/pubsub"}],"n":"iq"}
{"a":{"from":"pubsub.example","id":"15","to":"ann@a.example/1","type":"result"},"c":[{"c":[{"a":{"node":"open"},"c":[{"a":{"id":"m"},"n":"item"}],"n":"publish"}],"n":"pubsub","ns":"http://jabber.org/protocol/pubsub"}],"n":"iq"}
> bob@b.example 4 {"a":{"from":"pubsub.example","id":"n-4","to":"bob@b.example","type":"headline"},"c":[{"c":[{"a":{"node":"open"},"c":[{"a":{"id":"m"},"c":[{"n":"entry","ns":"urn:t"}],"n":"item"}],"n":"items"}],"n":"event","ns":"http://jabber.org/protocol/pubsub#event"}],"n":"message"}
-
a.example makes
{"a":{"from":"ann@a.example/1","id":"16","to":"pubsub.example","type":"set"},"c":[{"c":[{"a":{"node":"open"},"c":[{"a":{"jid":"bob@b.example","subscription":"subscribed"},"n":"subscription"},{"a":{"jid":"cid@b.example","subscription":"subscribed"},"n":"subscription"},{"a":{"jid":"alf@b.example","subscription":"none"},"n":"subscription"},{"a":{"jid":"cid@b.example","subscription":"none"},"n":"subscription"},{"a":{"jid":"alf@b.example","subscription":"pending"},"n":"subscription"},{"a":{"jid":"cid@b.example","subscription":"pending"},"n":"subscription"}],"n":"subscriptions"}],"n":"pubsub","ns":"http://jabber.org/protocol/pubsub#owner"}],"n":"iq"}
{"a":{"from":"pubsub.example","id":"16","to":"ann@a.example/1","type":"result"},"n":"iq"}
> alf@b.example 1 {"a":{"from":"pubsub.example","id":"n-1","to":"alf@b.example"},"c":[{"c":[{"a":{"jid":"alf@b.example","node":"open","subscription":"pending"},"n":"subscription"}],"n":"pubsub","ns":"http://jabber.org/protocol/pubsub"}],"n":"message"}
> cid@b.example 3 {"a":{"from":"pubsub.example","id":"n-3","to":"cid@b.example"},"c":[{"c":[{"a":{"jid":"cid@b.example","node":"open","subscription":"subscribed"},"n":"subscription"}],"n":"pubsub","ns":"http://jabber.org/protocol/pubsub"}],"n":"message"}
> cid@b.example 4 {"a":{"from":"pubsub.example","id":"n-4","to":"cid@b.example","type":"headline"},"c":[{"c":[{"a":{"node":"open"},"c":[{"a":{"id":"m"},"c":[{"n":"entry","ns":"urn:t"}],"n":"item"}],"n":"items"}],"n":"event","ns":"http://jabber.org/protocol/pubsub#event"}],"n":"message"}
> cid@b.example 5 {"a":{"from":"pubsub.example","id":"n-5","to":"cid@b.example"},"c":[{"c":[{"a":{"jid":"cid@b.example","node":"open","subscription":"none"},"n":"subscription"}],"n":"pubsub","ns":"http://jabber.org/protocol/pubsub"}],"n":"message"}
> cid@b.example 6 {"a":{"from":"pubsub.example","id":"n-6","to":"cid@b.example"},"c":[{"c":[{"a":{"jid":"cid@b.example","node":"open","subscription":"pending"},"n":"subscription"}],"n":"pubsub","ns":"http://jabber.org/protocol/pubsub"}],"n":"message"}
-
b.example makes
{"a":{"from":"dot@b.example/1","id":"17","to":"pubsub.example","type":"set"},"c":[{"c":[{"a":{"jid":"dot@b.example","node":"open"},"n":"subscribe"}],"n":"pubsub","ns":"http://jabber.org/protocol/pubsub"}],"n":"iq"}
{"a":{"from":"pubsub.example","id":"17","to":"dot@b.example/1","type":"result"},"c":[{"c":[{"a":{"jid":"dot@b.example","node":"open","subscription":"subscribed"},"n":"subscription"}],"n":"pubsub","ns":"http://jabber.org/protocol/pubsub"}],"n":"iq"}
> dot@b.example 2 {"a":{"from":"pubsub.example","id":"n-2","to":"dot@b.example","type":"headline"},"c":[{"c":[{"a":{"node":"open"},"c":[{"a":{"id":"m"},"c":[{"n":"entry","ns":"urn:t"}],"n":"item"}],"n":"items"}],"n":"event","ns":"http://jabber.org/protocol/pubsub#event"}],"n":"message"}
-
b.example makes
{"a":{"from":"dot@b.example/1","id":"18","to":"pubsub.example","type":"set"},"c":[{"c":[{"a":{"jid":"dot@b.example","node":"open"},"n":"subscribe"},{"c":[{"a":{"type":"submit"},"c":[{"a":{"var":"FORM_TYPE"},"c":[{"c":["http://jabber.org/protocol/pubsub#subscribe_options"],"n":"value"}],"n":"field"},{"a":{"var":"pubsub#subscription_depth"},"c":[{"c":["all"],"n":"value"}],"n":"field"}],"n":"x","ns":"jabber:x:data"}],"n":"options"}],"n":"pubsub","ns":"http://jabber.org/protocol/pubsub"}],"n":"iq"}
{"a":{"from":"pubsub.example","id":"18","to":"dot@b.example/1","type":"result"},"c":[{"c":[{"a":{"jid":"dot@b.example","node":"open","subscription":"subscribed"},"n":"subscription"}],"n":"pubsub","ns":"http://jabber.org/protocol/pubsub"}],"n":"iq"}
-
b.example makes
{"a":{"from":"dot@b.example/1","id":"19","to":"pubsub.example","type":"set"},"c":[{"c":[{"a":{"jid":"dot@b.example","node":"open"},"n":"unsubscribe"}],"n":"pubsub","ns":"http://jabber.org/protocol/pubsub"}],"n":"iq"}
{"a":{"from":"pubsub.example","id":"19","to":"dot@b.example/1","type":"result"},"n":"iq"}
-
a.example makes
{"a":{"from":"ann@a.example/1","id":"20","to":"pubsub.example","type":"set"},"c":[{"c":[{"a":{"node":"open"},"c":[{"a":{"type":"submit"},"c":[{"a":{"var":"FORM_TYPE"},"c":[{"c":["http://jabber.org/protocol/pubsub#node_config"],"n":"value"}],"n":"field"},{"a":{"var":"pubsub#deliver_notifications"},"c":[{"c":["0"],"n":"value"}],"n":"field"}],"n":"x","ns":"jabber:x:data"}],"n":"configure"}],"n":"pubsub","ns":"http://jabber.org/protocol/pubsub#owner"}],"n":"iq"}
{"a":{"from":"pubsub.example","id":"20","to":"ann@a.example/1","type":"result"},"n":"iq"}
-
b.example makes
{"a":{"from":"dot@b.example/1","id":"21","to":"pubsub.example","type":"set"},"c":[{"c":[{"a":{"jid":"dot@b.example","node":"open"},"n":"subscribe"}],"n":"pubsub","ns":"http://jabber.org/protocol/pubsub"}],"n":"iq"}
{"a":{"from":"pubsub.example","id":"21","to":"dot@b.example/1","type":"result"},"c":[{"c":[{"a":{"jid":"dot@b.example","node":"open","subscription":"subscribed"},"n":"subscription"}],"n":"pubsub","ns":"http://jabber.org/protocol/pubsub"}],"n":"iq"}
-
a.example makes
{"a":{"from":"ann@a.example/1","id":"22","type":"set"},"c":[{"c":[{"a":{"node":"urn:a"},"n":"create"},{"c":[{"a":{"type":"submit"},"c":[{"a":{"var":"FORM_TYPE"},"c":[{"c":["http://jabber.org/protocol/pubsub#node_config"],"n":"value"}],"n":"field"},{"a":{"var":"pubsub#access_model"},"c":[{"c":["authorize"],"n":"value"}],"n":"field"}],"n":"x","ns":"jabber:x:data"}],"n":"configure"}],"n":"pubsub","ns":"http://jabber.org/protocol/pubsub"}],"n":"iq"}
{"a":{"from":"ann@a.example","id":"22","to":"ann@a.example/1","type":"result"},"n":"iq"}
-
a.example makes
{"a":{"from":"ann@a.example/1","id":"23","type":"set"},"c":[{"c":[{"a":{"node":"urn:a"},"c":[{"a":{"affiliation":"owner","jid":"dot@b.example"},"n":"affiliation"}],"n":"affiliations"}],"n":"pubsub","ns":"http://jabber.org/protocol/pubsub#owner"}],"n":"iq"}
{"a":{"from":"ann@a.example","id":"23","to":"ann@a.example/1","type":"result"},"n":"iq"}
-
b.example makes
{"a":{"from":"bob@b.example/1","id":"24","to":"ann@a.example","type":"set"},"c":[{"c":[{"a":{"jid":"bob@b.example","node":"urn:a"},"n":"subscribe"}],"n":"pubsub","ns":"http://jabber.org/protocol/pubsub"}],"n":"iq"}
{"a":{"from":"ann@a.example","id":"24","to":"bob@b.example/1","type":"result"},"c":[{"c":[{"a":{"jid":"bob@b.example","node":"urn:a","subscription":"pending"},"n":"subscription"}],"n":"pubsub","ns":"http://jabber.org/protocol/pubsub"}],"n":"iq"}
> ann@a.example 3 {"a":{"from":"ann@a.example","id":"n-3","to":"ann@a.example"},"c":[{"a":{"type":"form"},"c":[{"a":{"type":"hidden","var":"FORM_TYPE"},"c":[{"c":["http://jabber.org/protocol/pubsub#subscribe_authorization"],"n":"value"}],"n":"field"},{"a":{"type":"text-single","var":"pubsub#node"},"c":[{"c":["urn:a"],"n":"value"}],"n":"field"},{"a":{"type":"jid-single","var":"pubsub#subscriber_jid"},"c":[{"c":["bob@b.example"],"n":"value"}],"n":"field"},{"a":{"type":"boolean","var":"pubsub#allow"},"c":[{"c":["0"],"n":"value"}],"n":"field"}],"n":"x","ns":"jabber:x:data"}],"n":"message"}
> dot@b.example 3 {"a":{"from":"ann@a.example","id":"n-3","to":"dot@b.example"},"c":[{"a":{"type":"form"},"c":[{"a":{"type":"hidden","var":"FORM_TYPE"},"c":[{"c":["http://jabber.org/protocol/pubsub#subscribe_authorization"],"n":"value"}],"n":"field"},{"a":{"type":"text-single","var":"pubsub#node"},"c":[{"c":["urn:a"],"n":"value"}],"n":"field"},{"a":{"type":"jid-single","var":"pubsub#subscriber_jid"},"c":[{"c":["bob@b.example"],"n":"value"}],"n":"field"},{"a":{"type":"boolean","var":"pubsub#allow"},"c":[{"c":["0"],"n":"value"}],"n":"field"}],"n":"x","ns":"jabber:x:data"}],"n":"message"}"#;
