// The lines that the tests send and get, by the words of the tables.

/// A node is to be made; a node with a subscriber, and its item; a line that makes no entry.
const CREATE: &str =
    r#"{"a":{"from":"ann@a.example/1","id":"1","to":"pubsub.example","type":"set"},"c":[{"c":[{"a":{"node":"news"},"n":"create"}],"n":"pubsub","ns":"http://jabber.org/protocol/pubsub"}],"n":"iq"}"#;

const SUBSCRIBE: &str =
    r#"{"a":{"from":"ann@a.example/1","id":"2","to":"pubsub.example","type":"set"},"c":[{"c":[{"a":{"jid":"ann@a.example","node":"news"},"n":"subscribe"}],"n":"pubsub","ns":"http://jabber.org/protocol/pubsub"}],"n":"iq"}"#;

/// The same of another subscriber.
const JOIN: &str =
    r#"{"a":{"from":"bob@a.example/1","id":"2","to":"pubsub.example","type":"set"},"c":[{"c":[{"a":{"jid":"bob@a.example","node":"news"},"n":"subscribe"}],"n":"pubsub","ns":"http://jabber.org/protocol/pubsub"}],"n":"iq"}"#;

const PUBLISH: &str =
    r#"{"a":{"from":"ann@a.example/1","id":"3","to":"pubsub.example","type":"set"},"c":[{"c":[{"a":{"node":"news"},"c":[{"a":{"id":"i1"},"c":[{"n":"entry","ns":"urn:t"}],"n":"item"}],"n":"publish"}],"n":"pubsub","ns":"http://jabber.org/protocol/pubsub"}],"n":"iq"}"#;

const MESSAGE: &str = r#"{"a":{"from":"x@a.example"},"n":"message"}"#;

/// Their replies, and the one that says that there is no room.
const MADE: &str =
    r#"{"a":{"from":"pubsub.example","id":"1","to":"ann@a.example/1","type":"result"},"n":"iq"}"#;

const SUBSCRIBED: &str =
    r#"{"a":{"from":"pubsub.example","id":"2","to":"ann@a.example/1","type":"result"},"c":[{"c":[{"a":{"jid":"ann@a.example","node":"news","subscription":"subscribed"},"n":"subscription"}],"n":"pubsub","ns":"http://jabber.org/protocol/pubsub"}],"n":"iq"}"#;

const JOINED: &str =
    r#"{"a":{"from":"pubsub.example","id":"2","to":"bob@a.example/1","type":"result"},"c":[{"c":[{"a":{"jid":"bob@a.example","node":"news","subscription":"subscribed"},"n":"subscription"}],"n":"pubsub","ns":"http://jabber.org/protocol/pubsub"}],"n":"iq"}"#;

const PUBLISHED: &str =
    r#"{"a":{"from":"pubsub.example","id":"3","to":"ann@a.example/1","type":"result"},"c":[{"c":[{"a":{"node":"news"},"c":[{"a":{"id":"i1"},"n":"item"}],"n":"publish"}],"n":"pubsub","ns":"http://jabber.org/protocol/pubsub"}],"n":"iq"}"#;

const UNAVAILABLE: &str =
    r#"{"a":{"from":"x@a.example","to":"x@a.example","type":"error"},"c":[{"a":{"type":"cancel"},"c":[{"n":"service-unavailable","ns":"urn:ietf:params:xml:ns:xmpp-stanzas"}],"n":"error"}],"n":"message"}"#;

const FULL: &str =
    r#"{"a":{"from":"pubsub.example","id":"1","to":"ann@a.example/1","type":"error"},"c":[{"a":{"type":"wait"},"c":[{"n":"resource-constraint","ns":"urn:ietf:params:xml:ns:xmpp-stanzas"}],"n":"error"}],"n":"iq"}"#;

/// The notices of two items to the two subscribers, each with the address that it is to.
const FIRST: &str =
    r#"ann@a.example {"a":{"from":"pubsub.example","id":"n-1","to":"ann@a.example","type":"headline"},"c":[{"c":[{"a":{"node":"news"},"c":[{"a":{"id":"i1"},"c":[{"n":"entry","ns":"urn:t"}],"n":"item"}],"n":"items"}],"n":"event","ns":"http://jabber.org/protocol/pubsub#event"}],"n":"message"}"#;

const SECOND: &str =
    r#"ann@a.example {"a":{"from":"pubsub.example","id":"n-2","to":"ann@a.example","type":"headline"},"c":[{"c":[{"a":{"node":"news"},"c":[{"a":{"id":"i1"},"c":[{"n":"entry","ns":"urn:t"}],"n":"item"}],"n":"items"}],"n":"event","ns":"http://jabber.org/protocol/pubsub#event"}],"n":"message"}"#;

const BOBS_FIRST: &str =
    r#"bob@a.example {"a":{"from":"pubsub.example","id":"n-1","to":"bob@a.example","type":"headline"},"c":[{"c":[{"a":{"node":"news"},"c":[{"a":{"id":"i1"},"c":[{"n":"entry","ns":"urn:t"}],"n":"item"}],"n":"items"}],"n":"event","ns":"http://jabber.org/protocol/pubsub#event"}],"n":"message"}"#;

const BOBS_SECOND: &str =
    r#"bob@a.example {"a":{"from":"pubsub.example","id":"n-2","to":"bob@a.example","type":"headline"},"c":[{"c":[{"a":{"node":"news"},"c":[{"a":{"id":"i1"},"c":[{"n":"entry","ns":"urn:t"}],"n":"item"}],"n":"items"}],"n":"event","ns":"http://jabber.org/protocol/pubsub#event"}],"n":"message"}"#;

/// The line of a word.
pub fn line_of(word: &str) -> &'static str {
    match word {
        "create" => CREATE,
        "subscribe" => SUBSCRIBE,
        "join" => JOIN,
        "publish" => PUBLISH,
        "message" => MESSAGE,
        "made" => MADE,
        "subscribed" => SUBSCRIBED,
        "joined" => JOINED,
        "published" => PUBLISHED,
        "unavailable" => UNAVAILABLE,
        "full" => FULL,
        "first" => FIRST,
        "second" => SECOND,
        "bobs-first" => BOBS_FIRST,
        "bobs-second" => BOBS_SECOND,
        _ => " ",
    }
}
