// The lines that the tests send, and what comes of them.

/// A node is to be made, and the reply.
pub const CREATE: &str =
    r#"{"a":{"from":"ann@a.example/1","id":"1","to":"pubsub.example","type":"set"},"c":[{"c":[{"a":{"node":"news"},"n":"create"}],"n":"pubsub","ns":"http://jabber.org/protocol/pubsub"}],"n":"iq"}"#;

pub const MADE: &str =
    r#"{"a":{"from":"pubsub.example","id":"1","to":"ann@a.example/1","type":"result"},"n":"iq"}"#;

/// The reply if the store has no room.
pub const NO_ROOM: &str =
    r#"{"a":{"from":"pubsub.example","id":"1","to":"ann@a.example/1","type":"error"},"c":[{"a":{"type":"wait"},"c":[{"n":"resource-constraint","ns":"urn:ietf:params:xml:ns:xmpp-stanzas"}],"n":"error"}],"n":"iq"}"#;

/// A subscription, and its reply.
pub const SUBSCRIBE: &str =
    r#"{"a":{"from":"ann@a.example/1","id":"2","to":"pubsub.example","type":"set"},"c":[{"c":[{"a":{"jid":"ann@a.example","node":"news"},"n":"subscribe"}],"n":"pubsub","ns":"http://jabber.org/protocol/pubsub"}],"n":"iq"}"#;

pub const SUBSCRIBED: &str =
    r#"{"a":{"from":"pubsub.example","id":"2","to":"ann@a.example/1","type":"result"},"c":[{"c":[{"a":{"jid":"ann@a.example","node":"news","subscription":"subscribed"},"n":"subscription"}],"n":"pubsub","ns":"http://jabber.org/protocol/pubsub"}],"n":"iq"}"#;

/// An item is published, its reply, and the first notice of it.
pub const PUBLISH: &str =
    r#"{"a":{"from":"ann@a.example/1","id":"3","to":"pubsub.example","type":"set"},"c":[{"c":[{"a":{"node":"news"},"c":[{"a":{"id":"i1"},"c":[{"n":"entry","ns":"urn:t"}],"n":"item"}],"n":"publish"}],"n":"pubsub","ns":"http://jabber.org/protocol/pubsub"}],"n":"iq"}"#;

pub const PUBLISHED: &str =
    r#"{"a":{"from":"pubsub.example","id":"3","to":"ann@a.example/1","type":"result"},"c":[{"c":[{"a":{"node":"news"},"c":[{"a":{"id":"i1"},"n":"item"}],"n":"publish"}],"n":"pubsub","ns":"http://jabber.org/protocol/pubsub"}],"n":"iq"}"#;

pub const TOLD: &str =
    r#"{"a":{"from":"pubsub.example","id":"n-1","to":"ann@a.example","type":"headline"},"c":[{"c":[{"a":{"node":"news"},"c":[{"a":{"id":"i1"},"c":[{"n":"entry","ns":"urn:t"}],"n":"item"}],"n":"items"}],"n":"event","ns":"http://jabber.org/protocol/pubsub#event"}],"n":"message"}"#;

/// The second notice of it.
pub const TOLD_NEXT: &str =
    r#"{"a":{"from":"pubsub.example","id":"n-2","to":"ann@a.example","type":"headline"},"c":[{"c":[{"a":{"node":"news"},"c":[{"a":{"id":"i1"},"c":[{"n":"entry","ns":"urn:t"}],"n":"item"}],"n":"items"}],"n":"event","ns":"http://jabber.org/protocol/pubsub#event"}],"n":"message"}"#;
