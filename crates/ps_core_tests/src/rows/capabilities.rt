// What resources show and answer of themselves (XEP-0115 §5).
// Made by tests/lines/hosts.py from the cases in tests/lines/hosts/capabilities.txt.
pub const ROWS: &str = r#"b.example makes
{"a":{"from":"bob@b.example/p","id":"1","to":"pubsub.example"},"c":[{"a":{"hash":"sha-1","node":"urn:n","ver":"QgayPKawpkPSDYmwT/WM94uAlu0="},"n":"c","ns":"http://jabber.org/protocol/caps"}],"n":"presence"}

> bob@b.example/p 1 {"a":{"from":"pubsub.example","id":"n-1","to":"bob@b.example/p","type":"get"},"c":[{"a":{"node":"urn:n#QgayPKawpkPSDYmwT/WM94uAlu0="},"n":"query","ns":"http://jabber.org/protocol/disco#info"}],"n":"iq"}
-
b.example
{"a":{"from":"bob@b.example/p","id":"2","to":"pubsub.example"},"c":[{"a":{"hash":"sha-1","node":"urn:n","ver":"QgayPKawpkPSDYmwT/WM94uAlu0="},"n":"c","ns":"http://jabber.org/protocol/caps"}],"n":"presence"}

-
b.example
{"a":{"from":"bob@b.example/p","id":"3","to":"pubsub.example","type":"result"},"c":[{"a":{"node":"urn:n#QgayPKawpkPSDYmwT/WM94uAlu0="},"c":[{"a":{"category":"client","name":"Exodus 0.9.1","type":"pc"},"n":"identity"},{"a":{"var":"http://jabber.org/protocol/caps"},"n":"feature"},{"a":{"var":"http://jabber.org/protocol/disco#info"},"n":"feature"},{"a":{"var":"http://jabber.org/protocol/disco#items"},"n":"feature"},{"a":{"var":"http://jabber.org/protocol/muc"},"n":"feature"},{"a":{"var":"http://jabber.org/protocol/muc"},"n":"feature"}],"n":"query","ns":"http://jabber.org/protocol/disco#info"}],"n":"iq"}

-
b.example
{"a":{"from":"bob@b.example/p","id":"4","to":"pubsub.example","type":"result"},"c":[{"a":{"node":"urn:n#AAAA"},"c":[{"a":{"var":"urn:t"},"n":"feature"}],"n":"query","ns":"http://jabber.org/protocol/disco#info"}],"n":"iq"}

-
b.example
{"a":{"from":"bob@b.example/z","id":"5","to":"pubsub.example","type":"result"},"c":[{"a":{"node":"urn:n#QgayPKawpkPSDYmwT/WM94uAlu0="},"c":[{"a":{"var":"urn:t"},"n":"feature"}],"n":"query","ns":"http://jabber.org/protocol/disco#info"}],"n":"iq"}

-
b.example makes
{"a":{"from":"bob@b.example/p","id":"6","to":"pubsub.example","type":"result"},"c":[{"a":{"node":"urn:n#QgayPKawpkPSDYmwT/WM94uAlu0="},"c":[{"a":{"category":"client","name":"Exodus 0.9.1","type":"pc"},"n":"identity"},{"a":{"var":"http://jabber.org/protocol/caps"},"n":"feature"},{"a":{"var":"http://jabber.org/protocol/disco#info"},"n":"feature"},{"a":{"var":"http://jabber.org/protocol/disco#items"},"n":"feature"},{"a":{"var":"http://jabber.org/protocol/muc"},"n":"feature"},{"a":{"var":"urn:more"},"n":"feature"}],"n":"query","ns":"http://jabber.org/protocol/disco#info"}],"n":"iq"}

-
b.example makes
{"a":{"from":"bob@b.example/q","id":"7","to":"pubsub.example"},"c":[{"a":{"hash":"sha-1","node":"urn:n","ver":"QgayPKawpkPSDYmwT/WM94uAlu0="},"n":"c","ns":"http://jabber.org/protocol/caps"}],"n":"presence"}

> bob@b.example/q 2 {"a":{"from":"pubsub.example","id":"n-2","to":"bob@b.example/q","type":"get"},"c":[{"a":{"node":"urn:n#QgayPKawpkPSDYmwT/WM94uAlu0="},"n":"query","ns":"http://jabber.org/protocol/disco#info"}],"n":"iq"}
-
b.example makes
{"a":{"from":"bob@b.example/q","id":"8","to":"pubsub.example","type":"result"},"c":[{"a":{"node":"urn:n#QgayPKawpkPSDYmwT/WM94uAlu0="},"c":[{"a":{"category":"client","name":"Exodus 0.9.1","type":"pc"},"n":"identity"},{"a":{"var":"http://jabber.org/protocol/caps"},"n":"feature"},{"a":{"var":"http://jabber.org/protocol/disco#info"},"n":"feature"},{"a":{"var":"http://jabber.org/protocol/disco#items"},"n":"feature"},{"a":{"var":"http://jabber.org/protocol/muc"},"n":"feature"}],"n":"query","ns":"http://jabber.org/protocol/disco#info"}],"n":"iq"}

-
b.example makes
{"a":{"from":"bob@b.example/r","id":"9","to":"pubsub.example"},"c":[{"a":{"hash":"sha-1","node":"urn:n","ver":"QgayPKawpkPSDYmwT/WM94uAlu0="},"n":"c","ns":"http://jabber.org/protocol/caps"}],"n":"presence"}

-
b.example
{"a":{"from":"bob@b.example/r","id":"10","to":"pubsub.example","type":"result"},"c":[{"a":{"node":"urn:n#QgayPKawpkPSDYmwT/WM94uAlu0="},"c":[{"a":{"category":"client","name":"Exodus 0.9.1","type":"pc"},"n":"identity"},{"a":{"var":"http://jabber.org/protocol/caps"},"n":"feature"},{"a":{"var":"http://jabber.org/protocol/disco#info"},"n":"feature"},{"a":{"var":"http://jabber.org/protocol/disco#items"},"n":"feature"},{"a":{"var":"http://jabber.org/protocol/muc"},"n":"feature"}],"n":"query","ns":"http://jabber.org/protocol/disco#info"}],"n":"iq"}

-
a.example makes
{"a":{"from":"ann@a.example/1","id":"11","to":"pubsub.example"},"c":[{"a":{"hash":"sha-1","node":"urn:n","ver":"QgayPKawpkPSDYmwT/WM94uAlu0="},"n":"c","ns":"http://jabber.org/protocol/caps"}],"n":"presence"}
"#;
