// Who is told by a subscription to a collection above the node (XEP-0248).
// Made by tests/lines/hosts.py from the cases in tests/lines/hosts/reach.txt.
pub const ROWS: &str = r#"a.example makes
{"a":{"from":"ann@a.example/1","id":"1","to":"pubsub.example","type":"set"},"c":[{"c":[{"a":{"node":"top"},"n":"create"},{"c":[{"a":{"type":"submit"},"c":[{"a":{"var":"FORM_TYPE"},"c":[{"c":["http://jabber.org/protocol/pubsub#node_config"],"n":"value"}],"n":"field"},{"a":{"var":"pubsub#node_type"},"c":[{"c":["collection"],"n":"value"}],"n":"field"}],"n":"x","ns":"jabber:x:data"}],"n":"configure"}],"n":"pubsub","ns":"http://jabber.org/protocol/pubsub"}],"n":"iq"}
{"a":{"from":"pubsub.example","id":"1","to":"ann@a.example/1","type":"result"},"n":"iq"}
-
a.example makes
{"a":{"from":"ann@a.example/1","id":"2","to":"pubsub.example","type":"set"},"c":[{"c":[{"a":{"node":"mid"},"n":"create"},{"c":[{"a":{"type":"submit"},"c":[{"a":{"var":"FORM_TYPE"},"c":[{"c":["http://jabber.org/protocol/pubsub#node_config"],"n":"value"}],"n":"field"},{"a":{"var":"pubsub#node_type"},"c":[{"c":["collection"],"n":"value"}],"n":"field"},{"a":{"var":"pubsub#collection"},"c":[{"c":["top"],"n":"value"}],"n":"field"}],"n":"x","ns":"jabber:x:data"}],"n":"configure"}],"n":"pubsub","ns":"http://jabber.org/protocol/pubsub"}],"n":"iq"}
{"a":{"from":"pubsub.example","id":"2","to":"ann@a.example/1","type":"result"},"n":"iq"}
-
a.example makes
{"a":{"from":"ann@a.example/1","id":"3","to":"pubsub.example","type":"set"},"c":[{"c":[{"a":{"node":"leaf"},"n":"create"},{"c":[{"a":{"type":"submit"},"c":[{"a":{"var":"FORM_TYPE"},"c":[{"c":["http://jabber.org/protocol/pubsub#node_config"],"n":"value"}],"n":"field"},{"a":{"var":"pubsub#collection"},"c":[{"c":["mid"],"n":"value"}],"n":"field"}],"n":"x","ns":"jabber:x:data"}],"n":"configure"}],"n":"pubsub","ns":"http://jabber.org/protocol/pubsub"}],"n":"iq"}
{"a":{"from":"pubsub.example","id":"3","to":"ann@a.example/1","type":"result"},"n":"iq"}
-
b.example makes
{"a":{"from":"bob@b.example/1","id":"4","to":"pubsub.example","type":"set"},"c":[{"c":[{"a":{"jid":"bob@b.example","node":"top"},"n":"subscribe"}],"n":"pubsub","ns":"http://jabber.org/protocol/pubsub"}],"n":"iq"}
{"a":{"from":"pubsub.example","id":"4","to":"bob@b.example/1","type":"result"},"c":[{"c":[{"a":{"jid":"bob@b.example","node":"top","subscription":"subscribed"},"n":"subscription"}],"n":"pubsub","ns":"http://jabber.org/protocol/pubsub"}],"n":"iq"}
-
a.example makes
{"a":{"from":"ann@a.example/1","id":"5","to":"pubsub.example","type":"set"},"c":[{"c":[{"a":{"node":"leaf"},"c":[{"a":{"id":"x"},"c":[{"n":"entry","ns":"urn:t"}],"n":"item"}],"n":"publish"}],"n":"pubsub","ns":"http://jabber.org/protocol/pubsub"}],"n":"iq"}
{"a":{"from":"pubsub.example","id":"5","to":"ann@a.example/1","type":"result"},"c":[{"c":[{"a":{"node":"leaf"},"c":[{"a":{"id":"x"},"n":"item"}],"n":"publish"}],"n":"pubsub","ns":"http://jabber.org/protocol/pubsub"}],"n":"iq"}
-
b.example makes
{"a":{"from":"bob@b.example/1","id":"6","to":"pubsub.example","type":"set"},"c":[{"c":[{"a":{"jid":"bob@b.example","node":"top"},"c":[{"a":{"type":"submit"},"c":[{"a":{"var":"FORM_TYPE"},"c":[{"c":["http://jabber.org/protocol/pubsub#subscribe_options"],"n":"value"}],"n":"field"},{"a":{"var":"pubsub#subscription_depth"},"c":[{"c":["all"],"n":"value"}],"n":"field"}],"n":"x","ns":"jabber:x:data"}],"n":"options"}],"n":"pubsub","ns":"http://jabber.org/protocol/pubsub"}],"n":"iq"}
{"a":{"from":"pubsub.example","id":"6","to":"bob@b.example/1","type":"result"},"n":"iq"}
-
a.example makes
{"a":{"from":"ann@a.example/1","id":"7","to":"pubsub.example","type":"set"},"c":[{"c":[{"a":{"node":"leaf"},"c":[{"a":{"id":"y"},"c":[{"n":"entry","ns":"urn:t"}],"n":"item"}],"n":"publish"}],"n":"pubsub","ns":"http://jabber.org/protocol/pubsub"}],"n":"iq"}
{"a":{"from":"pubsub.example","id":"7","to":"ann@a.example/1","type":"result"},"c":[{"c":[{"a":{"node":"leaf"},"c":[{"a":{"id":"y"},"n":"item"}],"n":"publish"}],"n":"pubsub","ns":"http://jabber.org/protocol/pubsub"}],"n":"iq"}
> bob@b.example 1 {"a":{"from":"pubsub.example","id":"n-1","to":"bob@b.example","type":"headline"},"c":[{"c":[{"a":{"node":"leaf"},"c":[{"a":{"id":"y"},"c":[{"n":"entry","ns":"urn:t"}],"n":"item"}],"n":"items"}],"n":"event","ns":"http://jabber.org/protocol/pubsub#event"},{"c":[{"a":{"name":"Collection"},"c":["top"],"n":"header"}],"n":"headers","ns":"http://jabber.org/protocol/shim"}],"n":"message"}
-
a.example makes
{"a":{"from":"ann@a.example/1","id":"8","to":"pubsub.example","type":"set"},"c":[{"c":[{"a":{"node":"leaf","notify":"1"},"c":[{"a":{"id":"x"},"n":"item"}],"n":"retract"}],"n":"pubsub","ns":"http://jabber.org/protocol/pubsub"}],"n":"iq"}
{"a":{"from":"pubsub.example","id":"8","to":"ann@a.example/1","type":"result"},"n":"iq"}
> bob@b.example 2 {"a":{"from":"pubsub.example","id":"n-2","to":"bob@b.example","type":"headline"},"c":[{"c":[{"a":{"node":"leaf"},"c":[{"a":{"id":"x"},"n":"retract"}],"n":"items"}],"n":"event","ns":"http://jabber.org/protocol/pubsub#event"},{"c":[{"a":{"name":"Collection"},"c":["top"],"n":"header"}],"n":"headers","ns":"http://jabber.org/protocol/shim"}],"n":"message"}
-
a.example makes
{"a":{"from":"ann@a.example/1","id":"9","to":"pubsub.example","type":"set"},"c":[{"c":[{"a":{"node":"leaf"},"n":"purge"}],"n":"pubsub","ns":"http://jabber.org/protocol/pubsub#owner"}],"n":"iq"}
{"a":{"from":"pubsub.example","id":"9","to":"ann@a.example/1","type":"result"},"n":"iq"}
> bob@b.example 3 {"a":{"from":"pubsub.example","id":"n-3","to":"bob@b.example","type":"headline"},"c":[{"c":[{"a":{"node":"leaf"},"n":"purge"}],"n":"event","ns":"http://jabber.org/protocol/pubsub#event"},{"c":[{"a":{"name":"Collection"},"c":["top"],"n":"header"}],"n":"headers","ns":"http://jabber.org/protocol/shim"}],"n":"message"}
-
a.example makes
{"a":{"from":"ann@a.example/1","id":"10","to":"pubsub.example","type":"set"},"c":[{"c":[{"a":{"node":"leaf"},"c":[{"a":{"type":"submit"},"c":[{"a":{"var":"FORM_TYPE"},"c":[{"c":["http://jabber.org/protocol/pubsub#node_config"],"n":"value"}],"n":"field"},{"a":{"var":"pubsub#access_model"},"c":[{"c":["whitelist"],"n":"value"}],"n":"field"}],"n":"x","ns":"jabber:x:data"}],"n":"configure"}],"n":"pubsub","ns":"http://jabber.org/protocol/pubsub#owner"}],"n":"iq"}
{"a":{"from":"pubsub.example","id":"10","to":"ann@a.example/1","type":"result"},"n":"iq"}
-
a.example makes
{"a":{"from":"ann@a.example/1","id":"11","to":"pubsub.example","type":"set"},"c":[{"c":[{"a":{"node":"leaf"},"c":[{"a":{"id":"z"},"c":[{"n":"entry","ns":"urn:t"}],"n":"item"}],"n":"publish"}],"n":"pubsub","ns":"http://jabber.org/protocol/pubsub"}],"n":"iq"}
{"a":{"from":"pubsub.example","id":"11","to":"ann@a.example/1","type":"result"},"c":[{"c":[{"a":{"node":"leaf"},"c":[{"a":{"id":"z"},"n":"item"}],"n":"publish"}],"n":"pubsub","ns":"http://jabber.org/protocol/pubsub"}],"n":"iq"}
-
a.example makes
{"a":{"from":"ann@a.example/1","id":"12","to":"pubsub.example","type":"set"},"c":[{"c":[{"a":{"node":"leaf"},"c":[{"a":{"type":"submit"},"c":[{"a":{"var":"FORM_TYPE"},"c":[{"c":["http://jabber.org/protocol/pubsub#node_config"],"n":"value"}],"n":"field"},{"a":{"var":"pubsub#access_model"},"c":[{"c":["open"],"n":"value"}],"n":"field"}],"n":"x","ns":"jabber:x:data"}],"n":"configure"}],"n":"pubsub","ns":"http://jabber.org/protocol/pubsub#owner"}],"n":"iq"}
{"a":{"from":"pubsub.example","id":"12","to":"ann@a.example/1","type":"result"},"n":"iq"}
-
a.example makes
{"a":{"from":"ann@a.example/1","id":"13","to":"pubsub.example","type":"set"},"c":[{"c":[{"a":{"node":"top"},"c":[{"a":{"type":"submit"},"c":[{"a":{"var":"FORM_TYPE"},"c":[{"c":["http://jabber.org/protocol/pubsub#node_config"],"n":"value"}],"n":"field"},{"a":{"var":"pubsub#access_model"},"c":[{"c":["whitelist"],"n":"value"}],"n":"field"}],"n":"x","ns":"jabber:x:data"}],"n":"configure"}],"n":"pubsub","ns":"http://jabber.org/protocol/pubsub#owner"}],"n":"iq"}
{"a":{"from":"pubsub.example","id":"13","to":"ann@a.example/1","type":"result"},"n":"iq"}
-
a.example makes
{"a":{"from":"ann@a.example/1","id":"14","to":"pubsub.example","type":"set"},"c":[{"c":[{"a":{"node":"leaf"},"c":[{"a":{"id":"z"},"c":[{"n":"entry","ns":"urn:t"}],"n":"item"}],"n":"publish"}],"n":"pubsub","ns":"http://jabber.org/protocol/pubsub"}],"n":"iq"}
{"a":{"from":"pubsub.example","id":"14","to":"ann@a.example/1","type":"result"},"c":[{"c":[{"a":{"node":"leaf"},"c":[{"a":{"id":"z"},"n":"item"}],"n":"publish"}],"n":"pubsub","ns":"http://jabber.org/protocol/pubsub"}],"n":"iq"}
-
a.example makes
{"a":{"from":"ann@a.example/1","id":"15","to":"pubsub.example","type":"set"},"c":[{"c":[{"a":{"node":"top"},"c":[{"a":{"type":"submit"},"c":[{"a":{"var":"FORM_TYPE"},"c":[{"c":["http://jabber.org/protocol/pubsub#node_config"],"n":"value"}],"n":"field"},{"a":{"var":"pubsub#access_model"},"c":[{"c":["open"],"n":"value"}],"n":"field"}],"n":"x","ns":"jabber:x:data"}],"n":"configure"}],"n":"pubsub","ns":"http://jabber.org/protocol/pubsub#owner"}],"n":"iq"}
{"a":{"from":"pubsub.example","id":"15","to":"ann@a.example/1","type":"result"},"n":"iq"}
-
b.example makes
{"a":{"from":"bob@b.example/1","id":"16","to":"pubsub.example","type":"set"},"c":[{"c":[{"a":{"jid":"bob@b.example","node":"mid"},"n":"subscribe"},{"c":[{"a":{"type":"submit"},"c":[{"a":{"var":"FORM_TYPE"},"c":[{"c":["http://jabber.org/protocol/pubsub#subscribe_options"],"n":"value"}],"n":"field"},{"a":{"var":"pubsub#subscription_depth"},"c":[{"c":["all"],"n":"value"}],"n":"field"}],"n":"x","ns":"jabber:x:data"}],"n":"options"}],"n":"pubsub","ns":"http://jabber.org/protocol/pubsub"}],"n":"iq"}
{"a":{"from":"pubsub.example","id":"16","to":"bob@b.example/1","type":"result"},"c":[{"c":[{"a":{"jid":"bob@b.example","node":"mid","subscription":"subscribed"},"n":"subscription"}],"n":"pubsub","ns":"http://jabber.org/protocol/pubsub"}],"n":"iq"}
-
a.example makes
{"a":{"from":"ann@a.example/1","id":"17","to":"pubsub.example","type":"set"},"c":[{"c":[{"a":{"node":"leaf"},"c":[{"a":{"id":"a"},"c":[{"n":"entry","ns":"urn:t"}],"n":"item"}],"n":"publish"}],"n":"pubsub","ns":"http://jabber.org/protocol/pubsub"}],"n":"iq"}
{"a":{"from":"pubsub.example","id":"17","to":"ann@a.example/1","type":"result"},"c":[{"c":[{"a":{"node":"leaf"},"c":[{"a":{"id":"a"},"n":"item"}],"n":"publish"}],"n":"pubsub","ns":"http://jabber.org/protocol/pubsub"}],"n":"iq"}
> bob@b.example 4 {"a":{"from":"pubsub.example","id":"n-4","to":"bob@b.example","type":"headline"},"c":[{"c":[{"a":{"node":"leaf"},"c":[{"a":{"id":"a"},"c":[{"n":"entry","ns":"urn:t"}],"n":"item"}],"n":"items"}],"n":"event","ns":"http://jabber.org/protocol/pubsub#event"},{"c":[{"a":{"name":"Collection"},"c":["mid"],"n":"header"}],"n":"headers","ns":"http://jabber.org/protocol/shim"}],"n":"message"}
-
a.example makes
{"a":{"from":"ann@a.example/1","id":"18","to":"pubsub.example","type":"set"},"c":[{"c":[{"a":{"node":"mid"},"c":[{"a":{"type":"submit"},"c":[{"a":{"var":"FORM_TYPE"},"c":[{"c":["http://jabber.org/protocol/pubsub#node_config"],"n":"value"}],"n":"field"},{"a":{"var":"pubsub#access_model"},"c":[{"c":["whitelist"],"n":"value"}],"n":"field"}],"n":"x","ns":"jabber:x:data"}],"n":"configure"}],"n":"pubsub","ns":"http://jabber.org/protocol/pubsub#owner"}],"n":"iq"}
{"a":{"from":"pubsub.example","id":"18","to":"ann@a.example/1","type":"result"},"n":"iq"}
-
a.example makes
{"a":{"from":"ann@a.example/1","id":"19","to":"pubsub.example","type":"set"},"c":[{"c":[{"a":{"node":"leaf"},"c":[{"a":{"id":"b"},"c":[{"n":"entry","ns":"urn:t"}],"n":"item"}],"n":"publish"}],"n":"pubsub","ns":"http://jabber.org/protocol/pubsub"}],"n":"iq"}
{"a":{"from":"pubsub.example","id":"19","to":"ann@a.example/1","type":"result"},"c":[{"c":[{"a":{"node":"leaf"},"c":[{"a":{"id":"b"},"n":"item"}],"n":"publish"}],"n":"pubsub","ns":"http://jabber.org/protocol/pubsub"}],"n":"iq"}
-
a.example makes
{"a":{"from":"ann@a.example/1","id":"20","to":"pubsub.example","type":"set"},"c":[{"c":[{"a":{"node":"mid"},"c":[{"a":{"type":"submit"},"c":[{"a":{"var":"FORM_TYPE"},"c":[{"c":["http://jabber.org/protocol/pubsub#node_config"],"n":"value"}],"n":"field"},{"a":{"var":"pubsub#access_model"},"c":[{"c":["open"],"n":"value"}],"n":"field"}],"n":"x","ns":"jabber:x:data"}],"n":"configure"}],"n":"pubsub","ns":"http://jabber.org/protocol/pubsub#owner"}],"n":"iq"}
{"a":{"from":"pubsub.example","id":"20","to":"ann@a.example/1","type":"result"},"n":"iq"}
-
b.example makes
{"a":{"from":"bob@b.example/1","id":"21","to":"pubsub.example","type":"set"},"c":[{"c":[{"a":{"jid":"bob@b.example","node":"mid"},"c":[{"a":{"type":"submit"},"c":[{"a":{"var":"FORM_TYPE"},"c":[{"c":["http://jabber.org/protocol/pubsub#subscribe_options"],"n":"value"}],"n":"field"},{"a":{"var":"pubsub#subscription_type"},"c":[{"c":["nodes"],"n":"value"}],"n":"field"}],"n":"x","ns":"jabber:x:data"}],"n":"options"}],"n":"pubsub","ns":"http://jabber.org/protocol/pubsub"}],"n":"iq"}
{"a":{"from":"pubsub.example","id":"21","to":"bob@b.example/1","type":"result"},"n":"iq"}
-
a.example makes
{"a":{"from":"ann@a.example/1","id":"22","to":"pubsub.example","type":"set"},"c":[{"c":[{"a":{"node":"leaf"},"c":[{"a":{"id":"c"},"c":[{"n":"entry","ns":"urn:t"}],"n":"item"}],"n":"publish"}],"n":"pubsub","ns":"http://jabber.org/protocol/pubsub"}],"n":"iq"}
{"a":{"from":"pubsub.example","id":"22","to":"ann@a.example/1","type":"result"},"c":[{"c":[{"a":{"node":"leaf"},"c":[{"a":{"id":"c"},"n":"item"}],"n":"publish"}],"n":"pubsub","ns":"http://jabber.org/protocol/pubsub"}],"n":"iq"}
> bob@b.example 5 {"a":{"from":"pubsub.example","id":"n-5","to":"bob@b.example","type":"headline"},"c":[{"c":[{"a":{"node":"leaf"},"c":[{"a":{"id":"c"},"c":[{"n":"entry","ns":"urn:t"}],"n":"item"}],"n":"items"}],"n":"event","ns":"http://jabber.org/protocol/pubsub#event"},{"c":[{"a":{"name":"Collection"},"c":["top"],"n":"header"}],"n":"headers","ns":"http://jabber.org/protocol/shim"}],"n":"message"}
-
b.example makes
{"a":{"from":"bob@b.example/1","id":"23","to":"pubsub.example","type":"set"},"c":[{"c":[{"a":{"jid":"bob@b.example","node":"leaf"},"n":"subscribe"},{"c":[{"a":{"type":"submit"},"c":[{"a":{"var":"FORM_TYPE"},"c":[{"c":["http://jabber.org/protocol/pubsub#subscribe_options"],"n":"value"}],"n":"field"},{"a":{"var":"pubsub#subscription_type"},"c":[{"c":["nodes"],"n":"value"}],"n":"field"}],"n":"x","ns":"jabber:x:data"}],"n":"options"}],"n":"pubsub","ns":"http://jabber.org/protocol/pubsub"}],"n":"iq"}
{"a":{"from":"pubsub.example","id":"23","to":"bob@b.example/1","type":"result"},"c":[{"c":[{"a":{"jid":"bob@b.example","node":"leaf","subscription":"subscribed"},"n":"subscription"}],"n":"pubsub","ns":"http://jabber.org/protocol/pubsub"}],"n":"iq"}
-
a.example makes
{"a":{"from":"ann@a.example/1","id":"24","to":"pubsub.example","type":"set"},"c":[{"c":[{"a":{"node":"leaf"},"c":[{"a":{"id":"d"},"c":[{"n":"entry","ns":"urn:t"}],"n":"item"}],"n":"publish"}],"n":"pubsub","ns":"http://jabber.org/protocol/pubsub"}],"n":"iq"}
{"a":{"from":"pubsub.example","id":"24","to":"ann@a.example/1","type":"result"},"c":[{"c":[{"a":{"node":"leaf"},"c":[{"a":{"id":"d"},"n":"item"}],"n":"publish"}],"n":"pubsub","ns":"http://jabber.org/protocol/pubsub"}],"n":"iq"}
> bob@b.example 6 {"a":{"from":"pubsub.example","id":"n-6","to":"bob@b.example","type":"headline"},"c":[{"c":[{"a":{"node":"leaf"},"c":[{"a":{"id":"d"},"c":[{"n":"entry","ns":"urn:t"}],"n":"item"}],"n":"items"}],"n":"event","ns":"http://jabber.org/protocol/pubsub#event"}],"n":"message"}
-
b.example makes
{"a":{"from":"bob@b.example/1","id":"25","to":"pubsub.example","type":"set"},"c":[{"c":[{"a":{"jid":"bob@b.example","node":"leaf"},"n":"unsubscribe"}],"n":"pubsub","ns":"http://jabber.org/protocol/pubsub"}],"n":"iq"}
{"a":{"from":"pubsub.example","id":"25","to":"bob@b.example/1","type":"result"},"n":"iq"}
-
a.example makes
{"a":{"from":"ann@a.example/1","id":"26","to":"pubsub.example","type":"set"},"c":[{"c":[{"a":{"node":"leaf"},"c":[{"a":{"type":"submit"},"c":[{"a":{"var":"FORM_TYPE"},"c":[{"c":["http://jabber.org/protocol/pubsub#node_config"],"n":"value"}],"n":"field"},{"a":{"var":"pubsub#notify_config"},"c":[{"c":["1"],"n":"value"}],"n":"field"}],"n":"x","ns":"jabber:x:data"}],"n":"configure"}],"n":"pubsub","ns":"http://jabber.org/protocol/pubsub#owner"}],"n":"iq"}
{"a":{"from":"pubsub.example","id":"26","to":"ann@a.example/1","type":"result"},"n":"iq"}
> bob@b.example 7 {"a":{"from":"pubsub.example","id":"n-7","to":"bob@b.example","type":"headline"},"c":[{"c":[{"a":{"node":"leaf"},"n":"configuration"}],"n":"event","ns":"http://jabber.org/protocol/pubsub#event"},{"c":[{"a":{"name":"Collection"},"c":["mid"],"n":"header"}],"n":"headers","ns":"http://jabber.org/protocol/shim"}],"n":"message"}
-
b.example makes
{"a":{"from":"cid@b.example/1","id":"27","to":"pubsub.example","type":"set"},"c":[{"c":[{"a":{"jid":"cid@b.example","node":"mid"},"n":"subscribe"},{"c":[{"a":{"type":"submit"},"c":[{"a":{"var":"FORM_TYPE"},"c":[{"c":["http://jabber.org/protocol/pubsub#subscribe_options"],"n":"value"}],"n":"field"},{"a":{"var":"pubsub#subscription_type"},"c":[{"c":["nodes"],"n":"value"}],"n":"field"}],"n":"x","ns":"jabber:x:data"}],"n":"options"}],"n":"pubsub","ns":"http://jabber.org/protocol/pubsub"}],"n":"iq"}
{"a":{"from":"pubsub.example","id":"27","to":"cid@b.example/1","type":"result"},"c":[{"c":[{"a":{"jid":"cid@b.example","node":"mid","subscription":"subscribed"},"n":"subscription"}],"n":"pubsub","ns":"http://jabber.org/protocol/pubsub"}],"n":"iq"}
-
b.example makes
{"a":{"from":"dot@b.example/1","id":"28","to":"pubsub.example","type":"set"},"c":[{"c":[{"a":{"jid":"dot@b.example","node":"top"},"n":"subscribe"},{"c":[{"a":{"type":"submit"},"c":[{"a":{"var":"FORM_TYPE"},"c":[{"c":["http://jabber.org/protocol/pubsub#subscribe_options"],"n":"value"}],"n":"field"},{"a":{"var":"pubsub#subscription_type"},"c":[{"c":["nodes"],"n":"value"}],"n":"field"}],"n":"x","ns":"jabber:x:data"}],"n":"options"}],"n":"pubsub","ns":"http://jabber.org/protocol/pubsub"}],"n":"iq"}
{"a":{"from":"pubsub.example","id":"28","to":"dot@b.example/1","type":"result"},"c":[{"c":[{"a":{"jid":"dot@b.example","node":"top","subscription":"subscribed"},"n":"subscription"}],"n":"pubsub","ns":"http://jabber.org/protocol/pubsub"}],"n":"iq"}
-
b.example makes
{"a":{"from":"alf@b.example/1","id":"29","to":"pubsub.example","type":"set"},"c":[{"c":[{"a":{"jid":"alf@b.example","node":"top"},"n":"subscribe"},{"c":[{"a":{"type":"submit"},"c":[{"a":{"var":"FORM_TYPE"},"c":[{"c":["http://jabber.org/protocol/pubsub#subscribe_options"],"n":"value"}],"n":"field"},{"a":{"var":"pubsub#subscription_type"},"c":[{"c":["nodes"],"n":"value"}],"n":"field"},{"a":{"var":"pubsub#subscription_depth"},"c":[{"c":["all"],"n":"value"}],"n":"field"}],"n":"x","ns":"jabber:x:data"}],"n":"options"}],"n":"pubsub","ns":"http://jabber.org/protocol/pubsub"}],"n":"iq"}
{"a":{"from":"pubsub.example","id":"29","to":"alf@b.example/1","type":"result"},"c":[{"c":[{"a":{"jid":"alf@b.example","node":"top","subscription":"subscribed"},"n":"subscription"}],"n":"pubsub","ns":"http://jabber.org/protocol/pubsub"}],"n":"iq"}
-
a.example makes
{"a":{"from":"ann@a.example/1","id":"30","to":"pubsub.example","type":"set"},"c":[{"c":[{"a":{"node":"n2"},"n":"create"},{"c":[{"a":{"type":"submit"},"c":[{"a":{"var":"FORM_TYPE"},"c":[{"c":["http://jabber.org/protocol/pubsub#node_config"],"n":"value"}],"n":"field"},{"a":{"var":"pubsub#collection"},"c":[{"c":["mid"],"n":"value"}],"n":"field"}],"n":"x","ns":"jabber:x:data"}],"n":"configure"}],"n":"pubsub","ns":"http://jabber.org/protocol/pubsub"}],"n":"iq"}
{"a":{"from":"pubsub.example","id":"30","to":"ann@a.example/1","type":"result"},"n":"iq"}
> alf@b.example 1 {"a":{"from":"pubsub.example","id":"n-1","to":"alf@b.example","type":"headline"},"c":[{"c":[{"a":{"node":"mid"},"c":[{"a":{"node":"n2"},"n":"associate"}],"n":"collection"}],"n":"event","ns":"http://jabber.org/protocol/pubsub#event"}],"n":"message"}
> bob@b.example 8 {"a":{"from":"pubsub.example","id":"n-8","to":"bob@b.example","type":"headline"},"c":[{"c":[{"a":{"node":"mid"},"c":[{"a":{"node":"n2"},"n":"associate"}],"n":"collection"}],"n":"event","ns":"http://jabber.org/protocol/pubsub#event"}],"n":"message"}
> cid@b.example 1 {"a":{"from":"pubsub.example","id":"n-1","to":"cid@b.example","type":"headline"},"c":[{"c":[{"a":{"node":"mid"},"c":[{"a":{"node":"n2"},"n":"associate"}],"n":"collection"}],"n":"event","ns":"http://jabber.org/protocol/pubsub#event"}],"n":"message"}
-
a.example
{"a":{"from":"ann@a.example/1","id":"31","to":"pubsub.example","type":"set"},"c":[{"c":[{"a":{"node":"mid"},"n":"delete"}],"n":"pubsub","ns":"http://jabber.org/protocol/pubsub#owner"}],"n":"iq"}
{"a":{"from":"pubsub.example","id":"31","to":"ann@a.example/1","type":"error"},"c":[{"a":{"type":"modify"},"c":[{"n":"not-acceptable","ns":"urn:ietf:params:xml:ns:xmpp-stanzas"}],"n":"error"}],"n":"iq"}
-
a.example
{"a":{"from":"ann@a.example/1","id":"32","to":"pubsub.example","type":"get"},"c":[{"c":[{"a":{"node":"n2"},"n":"configure"}],"n":"pubsub","ns":"http://jabber.org/protocol/pubsub#owner"}],"n":"iq"}
{"a":{"from":"pubsub.example","id":"32","to":"ann@a.example/1","type":"result"},"c":[{"c":[{"a":{"node":"n2"},"c":[{"a":{"type":"form"},"c":[{"a":{"type":"hidden","var":"FORM_TYPE"},"c":[{"c":["http://jabber.org/protocol/pubsub#node_config"],"n":"value"}],"n":"field"},{"a":{"type":"text-single","var":"pubsub#title"},"c":[{"n":"value"}],"n":"field"},{"a":{"type":"boolean","var":"pubsub#deliver_notifications"},"c":[{"c":["1"],"n":"value"}],"n":"field"},{"a":{"type":"boolean","var":"pubsub#deliver_payloads"},"c":[{"c":["1"],"n":"value"}],"n":"field"},{"a":{"type":"boolean","var":"pubsub#notify_config"},"c":[{"c":["0"],"n":"value"}],"n":"field"},{"a":{"type":"boolean","var":"pubsub#notify_delete"},"c":[{"c":["0"],"n":"value"}],"n":"field"},{"a":{"type":"boolean","var":"pubsub#notify_retract"},"c":[{"c":["0"],"n":"value"}],"n":"field"},{"a":{"type":"boolean","var":"pubsub#persist_items"},"c":[{"c":["1"],"n":"value"}],"n":"field"},{"a":{"type":"text-single","var":"pubsub#max_items"},"c":[{"c":["10"],"n":"value"}],"n":"field"},{"a":{"type":"list-single","var":"pubsub#access_model"},"c":[{"c":["open"],"n":"value"}],"n":"field"},{"a":{"type":"list-single","var":"pubsub#publish_model"},"c":[{"c":["publishers"],"n":"value"}],"n":"field"},{"a":{"type":"list-multi","var":"pubsub#roster_groups_allowed"},"n":"field"},{"a":{"type":"list-single","var":"pubsub#send_last_published_item"},"c":[{"c":["never"],"n":"value"}],"n":"field"},{"a":{"type":"boolean","var":"pubsub#presence_based_delivery"},"c":[{"c":["0"],"n":"value"}],"n":"field"},{"a":{"type":"list-single","var":"pubsub#notification_type"},"c":[{"c":["headline"],"n":"value"}],"n":"field"},{"a":{"type":"text-single","var":"pubsub#max_payload_size"},"c":[{"c":["65536"],"n":"value"}],"n":"field"},{"a":{"type":"list-single","var":"pubsub#node_type"},"c":[{"c":["leaf"],"n":"value"}],"n":"field"},{"a":{"type":"text-single","var":"pubsub#collection"},"c":[{"c":["mid"],"n":"value"}],"n":"field"}],"n":"x","ns":"jabber:x:data"}],"n":"configure"}],"n":"pubsub","ns":"http://jabber.org/protocol/pubsub#owner"}],"n":"iq"}
-
a.example makes
{"a":{"from":"ann@a.example/1","id":"33","to":"pubsub.example","type":"set"},"c":[{"c":[{"a":{"node":"n3"},"n":"create"},{"c":[{"a":{"type":"submit"},"c":[{"a":{"var":"FORM_TYPE"},"c":[{"c":["http://jabber.org/protocol/pubsub#node_config"],"n":"value"}],"n":"field"},{"a":{"var":"pubsub#collection"},"c":[{"c":["top"],"n":"value"}],"n":"field"}],"n":"x","ns":"jabber:x:data"}],"n":"configure"}],"n":"pubsub","ns":"http://jabber.org/protocol/pubsub"}],"n":"iq"}
{"a":{"from":"pubsub.example","id":"33","to":"ann@a.example/1","type":"result"},"n":"iq"}
> alf@b.example 2 {"a":{"from":"pubsub.example","id":"n-2","to":"alf@b.example","type":"headline"},"c":[{"c":[{"a":{"node":"top"},"c":[{"a":{"node":"n3"},"n":"associate"}],"n":"collection"}],"n":"event","ns":"http://jabber.org/protocol/pubsub#event"}],"n":"message"}
> dot@b.example 1 {"a":{"from":"pubsub.example","id":"n-1","to":"dot@b.example","type":"headline"},"c":[{"c":[{"a":{"node":"top"},"c":[{"a":{"node":"n3"},"n":"associate"}],"n":"collection"}],"n":"event","ns":"http://jabber.org/protocol/pubsub#event"}],"n":"message"}
-
a.example makes
{"a":{"from":"ann@a.example/1","id":"34","to":"pubsub.example","type":"set"},"c":[{"c":[{"a":{"node":"n4"},"n":"create"},{"c":[{"a":{"type":"submit"},"c":[{"a":{"var":"FORM_TYPE"},"c":[{"c":["http://jabber.org/protocol/pubsub#node_config"],"n":"value"}],"n":"field"},{"a":{"var":"pubsub#collection"},"c":[{"c":["top"],"n":"value"}],"n":"field"},{"a":{"var":"pubsub#access_model"},"c":[{"c":["whitelist"],"n":"value"}],"n":"field"},{"a":{"var":"pubsub#notification_type"},"c":[{"c":["normal"],"n":"value"}],"n":"field"}],"n":"x","ns":"jabber:x:data"}],"n":"configure"}],"n":"pubsub","ns":"http://jabber.org/protocol/pubsub"}],"n":"iq"}
{"a":{"from":"pubsub.example","id":"34","to":"ann@a.example/1","type":"result"},"n":"iq"}
-
a.example makes
{"a":{"from":"ann@a.example/1","id":"35","to":"pubsub.example","type":"set"},"c":[{"c":[{"a":{"node":"top"},"c":[{"a":{"type":"submit"},"c":[{"a":{"var":"FORM_TYPE"},"c":[{"c":["http://jabber.org/protocol/pubsub#node_config"],"n":"value"}],"n":"field"},{"a":{"var":"pubsub#notification_type"},"c":[{"c":["normal"],"n":"value"}],"n":"field"}],"n":"x","ns":"jabber:x:data"}],"n":"configure"}],"n":"pubsub","ns":"http://jabber.org/protocol/pubsub#owner"}],"n":"iq"}
{"a":{"from":"pubsub.example","id":"35","to":"ann@a.example/1","type":"result"},"n":"iq"}
-
a.example makes
{"a":{"from":"ann@a.example/1","id":"36","to":"pubsub.example","type":"set"},"c":[{"c":[{"a":{"node":"n5"},"n":"create"},{"c":[{"a":{"type":"submit"},"c":[{"a":{"var":"FORM_TYPE"},"c":[{"c":["http://jabber.org/protocol/pubsub#node_config"],"n":"value"}],"n":"field"},{"a":{"var":"pubsub#collection"},"c":[{"c":["top"],"n":"value"}],"n":"field"}],"n":"x","ns":"jabber:x:data"}],"n":"configure"}],"n":"pubsub","ns":"http://jabber.org/protocol/pubsub"}],"n":"iq"}
{"a":{"from":"pubsub.example","id":"36","to":"ann@a.example/1","type":"result"},"n":"iq"}
> alf@b.example 3 {"a":{"from":"pubsub.example","id":"n-3","to":"alf@b.example"},"c":[{"c":[{"a":{"node":"top"},"c":[{"a":{"node":"n5"},"n":"associate"}],"n":"collection"}],"n":"event","ns":"http://jabber.org/protocol/pubsub#event"}],"n":"message"}
> dot@b.example 2 {"a":{"from":"pubsub.example","id":"n-2","to":"dot@b.example"},"c":[{"c":[{"a":{"node":"top"},"c":[{"a":{"node":"n5"},"n":"associate"}],"n":"collection"}],"n":"event","ns":"http://jabber.org/protocol/pubsub#event"}],"n":"message"}
-
a.example makes
{"a":{"from":"ann@a.example/1","id":"37","to":"pubsub.example","type":"set"},"c":[{"c":[{"a":{"node":"n2"},"c":[{"a":{"type":"submit"},"c":[{"a":{"var":"FORM_TYPE"},"c":[{"c":["http://jabber.org/protocol/pubsub#node_config"],"n":"value"}],"n":"field"},{"a":{"var":"pubsub#notify_delete"},"c":[{"c":["1"],"n":"value"}],"n":"field"}],"n":"x","ns":"jabber:x:data"}],"n":"configure"}],"n":"pubsub","ns":"http://jabber.org/protocol/pubsub#owner"}],"n":"iq"}
{"a":{"from":"pubsub.example","id":"37","to":"ann@a.example/1","type":"result"},"n":"iq"}
-
a.example makes
{"a":{"from":"ann@a.example/1","id":"38","to":"pubsub.example","type":"set"},"c":[{"c":[{"a":{"node":"n2"},"n":"delete"}],"n":"pubsub","ns":"http://jabber.org/protocol/pubsub#owner"}],"n":"iq"}
{"a":{"from":"pubsub.example","id":"38","to":"ann@a.example/1","type":"result"},"n":"iq"}
> alf@b.example 4 {"a":{"from":"pubsub.example","id":"n-4","to":"alf@b.example","type":"headline"},"c":[{"c":[{"a":{"node":"n2"},"n":"delete"}],"n":"event","ns":"http://jabber.org/protocol/pubsub#event"},{"c":[{"a":{"name":"Collection"},"c":["top"],"n":"header"}],"n":"headers","ns":"http://jabber.org/protocol/shim"}],"n":"message"}
> bob@b.example 9 {"a":{"from":"pubsub.example","id":"n-9","to":"bob@b.example","type":"headline"},"c":[{"c":[{"a":{"node":"n2"},"n":"delete"}],"n":"event","ns":"http://jabber.org/protocol/pubsub#event"},{"c":[{"a":{"name":"Collection"},"c":["mid"],"n":"header"}],"n":"headers","ns":"http://jabber.org/protocol/shim"}],"n":"message"}
> cid@b.example 2 {"a":{"from":"pubsub.example","id":"n-2","to":"cid@b.example","type":"headline"},"c":[{"c":[{"a":{"node":"n2"},"n":"delete"}],"n":"event","ns":"http://jabber.org/protocol/pubsub#event"},{"c":[{"a":{"name":"Collection"},"c":["mid"],"n":"header"}],"n":"headers","ns":"http://jabber.org/protocol/shim"}],"n":"message"}"#;
