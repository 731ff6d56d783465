// The lines that the streams read, and what comes of them.

/// A node is to be made.
pub const CREATE: &str =
    r#"{"a":{"from":"ann@a.example/1","id":"1","to":"pubsub.example","type":"set"},"c":[{"c":[{"a":{"node":"news"},"n":"create"}],"n":"pubsub","ns":"http://jabber.org/protocol/pubsub"}],"n":"iq"}
"#;

/// The reply.
pub const MADE: &str =
    r#"{"a":{"from":"pubsub.example","id":"1","to":"ann@a.example/1","type":"result"},"n":"iq"}
"#;

/// The node is to be made again.
pub const AGAIN: &str =
    r#"{"a":{"from":"ann@a.example/1","id":"2","to":"pubsub.example","type":"set"},"c":[{"c":[{"a":{"node":"news"},"n":"create"}],"n":"pubsub","ns":"http://jabber.org/protocol/pubsub"}],"n":"iq"}
"#;

/// The reply.
pub const CONFLICT: &str =
    r#"{"a":{"from":"pubsub.example","id":"2","to":"ann@a.example/1","type":"error"},"c":[{"a":{"type":"cancel"},"c":[{"n":"conflict","ns":"urn:ietf:params:xml:ns:xmpp-stanzas"}],"n":"error"}],"n":"iq"}
"#;
