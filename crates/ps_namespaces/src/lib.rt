//! The XML namespaces of stanzas, and the form types that stand in their place within data forms.
//!
//! Each is named once, here, for all crates that read or write trees. There is no function, and nothing to prove: what a
//! tree has to carry stands in the contracts of those who build it, spelled out.
#![tactic(auto)]

/// Stanzas of a client (RFC 6120 §4.8.2). An element without a namespace of its own is in this one.
pub const CLIENT: &str = "jabber:client";

/// The conditions of stanza errors (RFC 6120 §8.3).
pub const STANZA_ERRORS: &str = "urn:ietf:params:xml:ns:xmpp-stanzas";

/// Rosters (RFC 6121 §2).
pub const ROSTER: &str = "jabber:iq:roster";

/// What an entity asks of publish-subscribe (XEP-0060 §5 to §7).
pub const PUBSUB: &str = "http://jabber.org/protocol/pubsub";

/// What an owner asks (XEP-0060 §8).
pub const PUBSUB_OWNER: &str = "http://jabber.org/protocol/pubsub#owner";

/// Notices of events (XEP-0060 §7.1.2).
pub const PUBSUB_EVENT: &str = "http://jabber.org/protocol/pubsub#event";

/// The conditions of errors that are those of publish-subscribe alone (XEP-0060 §16.4).
pub const PUBSUB_ERRORS: &str = "http://jabber.org/protocol/pubsub#errors";

/// The form type of a node's configuration (XEP-0060 §16.4.4).
pub const NODE_CONFIG: &str = "http://jabber.org/protocol/pubsub#node_config";

/// The form type of the options of a publish (XEP-0060 §7.1.5).
pub const PUBLISH_OPTIONS: &str = "http://jabber.org/protocol/pubsub#publish-options";

/// The form type of the options of a subscription (XEP-0060 §16.4.2).
pub const SUBSCRIBE_OPTIONS: &str = "http://jabber.org/protocol/pubsub#subscribe_options";

/// The form type by which an owner approves a subscription (XEP-0060 §8.6).
pub const SUBSCRIBE_AUTHORIZATION: &str =
    "http://jabber.org/protocol/pubsub#subscribe_authorization";

/// The feature of nodes that a publish creates (XEP-0060 §7.1.4).
pub const AUTO_CREATE: &str = "http://jabber.org/protocol/pubsub#auto-create";

/// The feature of notices that go by what their receiver wants (XEP-0060 §9.2).
pub const FILTERED_NOTIFICATIONS: &str = "http://jabber.org/protocol/pubsub#filtered-notifications";

/// Data forms (XEP-0004 §3).
pub const DATA_FORMS: &str = "jabber:x:data";

/// What an entity is and can do (XEP-0030 §3).
pub const DISCO_INFO: &str = "http://jabber.org/protocol/disco#info";

/// What belongs to an entity (XEP-0030 §4).
pub const DISCO_ITEMS: &str = "http://jabber.org/protocol/disco#items";

/// Capabilities that a presence tells by a digest (XEP-0115 §4).
pub const CAPS: &str = "http://jabber.org/protocol/caps";

/// Headers of a notice (XEP-0131 §2).
pub const HEADERS: &str = "http://jabber.org/protocol/shim";

/// When a notice was due first (XEP-0203 §2).
pub const DELAY: &str = "urn:xmpp:delay";

/// The condition of a line that is no stanza.
pub const LINE: &str = "urn:pubsubd:line";

/// The rows that a compacted store begins with.
pub const BASE: &str = "urn:pubsubd:base";
