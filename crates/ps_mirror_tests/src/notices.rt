// Lines of a sink, and lines of a report.

// The first item of the node.
const FIRST: &str =
    "{\"a\":{\"from\":\"pubsub.example\",\"id\":\"n-1\",\"to\":\"bob@b.example\",\"type\":\"headline\"},\"c\":[{\"c\":[{\"a\":{\"node\":\"news\"},\"c\":[{\"a\":{\"id\":\"i1\"},\"c\":[{\"c\":[\"hi\"],\"n\":\"entry\",\"ns\":\"urn:t\"}],\"n\":\"item\"}],\"n\":\"items\"}],\"n\":\"event\",\"ns\":\"http://jabber.org/protocol/pubsub#event\"}],\"n\":\"message\"}";

// Another one, without a payload.
const SECOND: &str =
    "{\"a\":{\"from\":\"pubsub.example\",\"id\":\"n-2\",\"to\":\"bob@b.example\",\"type\":\"headline\"},\"c\":[{\"c\":[{\"a\":{\"node\":\"news\"},\"c\":[{\"a\":{\"id\":\"i2\"},\"n\":\"item\"}],\"n\":\"items\"}],\"n\":\"event\",\"ns\":\"http://jabber.org/protocol/pubsub#event\"}],\"n\":\"message\"}";

// The first item, published again.
const AGAIN: &str =
    "{\"a\":{\"from\":\"pubsub.example\",\"id\":\"n-3\",\"to\":\"bob@b.example\",\"type\":\"headline\"},\"c\":[{\"c\":[{\"a\":{\"node\":\"news\"},\"c\":[{\"a\":{\"id\":\"i1\"},\"c\":[{\"c\":[\"ho\"],\"n\":\"entry\",\"ns\":\"urn:t\"}],\"n\":\"item\"}],\"n\":\"items\"}],\"n\":\"event\",\"ns\":\"http://jabber.org/protocol/pubsub#event\"}],\"n\":\"message\"}";

// The first item is retracted.
const GONE: &str =
    "{\"a\":{\"from\":\"pubsub.example\",\"id\":\"n-2\",\"to\":\"bob@b.example\",\"type\":\"headline\"},\"c\":[{\"c\":[{\"a\":{\"node\":\"news\"},\"c\":[{\"a\":{\"id\":\"i1\"},\"n\":\"retract\"}],\"n\":\"items\"}],\"n\":\"event\",\"ns\":\"http://jabber.org/protocol/pubsub#event\"}],\"n\":\"message\"}";

// All items go.
const PURGED: &str =
    "{\"a\":{\"from\":\"pubsub.example\",\"id\":\"n-3\",\"to\":\"bob@b.example\",\"type\":\"headline\"},\"c\":[{\"c\":[{\"a\":{\"node\":\"news\"},\"n\":\"purge\"}],\"n\":\"event\",\"ns\":\"http://jabber.org/protocol/pubsub#event\"}],\"n\":\"message\"}";

// All items of another node go.
const OTHER_PURGED: &str =
    "{\"a\":{\"from\":\"pubsub.example\",\"id\":\"n-4\",\"to\":\"bob@b.example\",\"type\":\"headline\"},\"c\":[{\"c\":[{\"a\":{\"node\":\"other\"},\"n\":\"purge\"}],\"n\":\"event\",\"ns\":\"http://jabber.org/protocol/pubsub#event\"}],\"n\":\"message\"}";

// An item of another node.
const OTHER_ITEM: &str =
    "{\"a\":{\"from\":\"pubsub.example\",\"id\":\"n-4\",\"to\":\"bob@b.example\",\"type\":\"headline\"},\"c\":[{\"c\":[{\"a\":{\"node\":\"other\"},\"c\":[{\"a\":{\"id\":\"i9\"},\"c\":[{\"c\":[\"hi\"],\"n\":\"entry\",\"ns\":\"urn:t\"}],\"n\":\"item\"}],\"n\":\"items\"}],\"n\":\"event\",\"ns\":\"http://jabber.org/protocol/pubsub#event\"}],\"n\":\"message\"}";

// One that another address sends.
const OTHER_SERVICE: &str =
    "{\"a\":{\"from\":\"bob@b.example\",\"id\":\"n-4\",\"to\":\"bob@b.example\",\"type\":\"headline\"},\"c\":[{\"c\":[{\"a\":{\"node\":\"news\"},\"c\":[{\"a\":{\"id\":\"i9\"},\"n\":\"item\"}],\"n\":\"items\"}],\"n\":\"event\",\"ns\":\"http://jabber.org/protocol/pubsub#event\"}],\"n\":\"message\"}";

// One to a resource of the address.
const OTHER_ADDRESS: &str =
    "{\"a\":{\"from\":\"pubsub.example\",\"id\":\"n-4\",\"to\":\"bob@b.example/1\",\"type\":\"headline\"},\"c\":[{\"c\":[{\"a\":{\"node\":\"news\"},\"c\":[{\"a\":{\"id\":\"i9\"},\"n\":\"item\"}],\"n\":\"items\"}],\"n\":\"event\",\"ns\":\"http://jabber.org/protocol/pubsub#event\"}],\"n\":\"message\"}";

// One whose number is none of a notice.
const ZERO: &str =
    "{\"a\":{\"from\":\"pubsub.example\",\"id\":\"n-0\",\"to\":\"bob@b.example\",\"type\":\"headline\"},\"c\":[{\"c\":[{\"a\":{\"node\":\"news\"},\"c\":[{\"a\":{\"id\":\"i9\"},\"n\":\"item\"}],\"n\":\"items\"}],\"n\":\"event\",\"ns\":\"http://jabber.org/protocol/pubsub#event\"}],\"n\":\"message\"}";

// One whose number has a zero before it.
const PADDED: &str =
    "{\"a\":{\"from\":\"pubsub.example\",\"id\":\"n-04\",\"to\":\"bob@b.example\",\"type\":\"headline\"},\"c\":[{\"c\":[{\"a\":{\"node\":\"news\"},\"c\":[{\"a\":{\"id\":\"i9\"},\"n\":\"item\"}],\"n\":\"items\"}],\"n\":\"event\",\"ns\":\"http://jabber.org/protocol/pubsub#event\"}],\"n\":\"message\"}";

// One whose number is 2^127.
const WIDE: &str =
    "{\"a\":{\"from\":\"pubsub.example\",\"id\":\"n-170141183460469231731687303715884105728\",\"to\":\"bob@b.example\",\"type\":\"headline\"},\"c\":[{\"c\":[{\"a\":{\"node\":\"news\"},\"c\":[{\"a\":{\"id\":\"i9\"},\"n\":\"item\"}],\"n\":\"items\"}],\"n\":\"event\",\"ns\":\"http://jabber.org/protocol/pubsub#event\"}],\"n\":\"message\"}";

// One whose number is one less.
const WIDEST: &str =
    "{\"a\":{\"from\":\"pubsub.example\",\"id\":\"n-170141183460469231731687303715884105727\",\"to\":\"bob@b.example\",\"type\":\"headline\"},\"c\":[{\"c\":[{\"a\":{\"node\":\"news\"},\"c\":[{\"a\":{\"id\":\"i9\"},\"n\":\"item\"}],\"n\":\"items\"}],\"n\":\"event\",\"ns\":\"http://jabber.org/protocol/pubsub#event\"}],\"n\":\"message\"}";

// Two items in one notice.
const TWO_ITEMS: &str =
    "{\"a\":{\"from\":\"pubsub.example\",\"id\":\"n-4\",\"to\":\"bob@b.example\",\"type\":\"headline\"},\"c\":[{\"c\":[{\"a\":{\"node\":\"news\"},\"c\":[{\"a\":{\"id\":\"i8\"},\"n\":\"item\"},{\"a\":{\"id\":\"i9\"},\"n\":\"item\"}],\"n\":\"items\"}],\"n\":\"event\",\"ns\":\"http://jabber.org/protocol/pubsub#event\"}],\"n\":\"message\"}";

// An item with two payloads.
const TWO_PAYLOADS: &str =
    "{\"a\":{\"from\":\"pubsub.example\",\"id\":\"n-4\",\"to\":\"bob@b.example\",\"type\":\"headline\"},\"c\":[{\"c\":[{\"a\":{\"node\":\"news\"},\"c\":[{\"a\":{\"id\":\"i9\"},\"c\":[{\"c\":[\"a\"],\"n\":\"entry\",\"ns\":\"urn:t\"},{\"c\":[\"b\"],\"n\":\"entry\",\"ns\":\"urn:t\"}],\"n\":\"item\"}],\"n\":\"items\"}],\"n\":\"event\",\"ns\":\"http://jabber.org/protocol/pubsub#event\"}],\"n\":\"message\"}";

// An item without an id.
const NO_ID: &str =
    "{\"a\":{\"from\":\"pubsub.example\",\"id\":\"n-4\",\"to\":\"bob@b.example\",\"type\":\"headline\"},\"c\":[{\"c\":[{\"a\":{\"node\":\"news\"},\"c\":[{\"n\":\"item\"}],\"n\":\"items\"}],\"n\":\"event\",\"ns\":\"http://jabber.org/protocol/pubsub#event\"}],\"n\":\"message\"}";

// A reply.
const REPLY: &str =
    "{\"a\":{\"from\":\"pubsub.example\",\"id\":\"1\",\"to\":\"ann@a.example/1\",\"type\":\"result\"},\"n\":\"iq\"}";

// How the first item is reported.
const FIRST_SHOWN: &str =
    "{\"a\":{\"id\":\"i1\"},\"c\":[{\"c\":[\"hi\"],\"n\":\"entry\",\"ns\":\"urn:t\"}],\"n\":\"item\",\"ns\":\"http://jabber.org/protocol/pubsub\"}";

// How it is, published again.
const AGAIN_SHOWN: &str =
    "{\"a\":{\"id\":\"i1\"},\"c\":[{\"c\":[\"ho\"],\"n\":\"entry\",\"ns\":\"urn:t\"}],\"n\":\"item\",\"ns\":\"http://jabber.org/protocol/pubsub\"}";

// How the other one is.
const SECOND_SHOWN: &str =
    "{\"a\":{\"id\":\"i2\"},\"n\":\"item\",\"ns\":\"http://jabber.org/protocol/pubsub\"}";

// How the item of the widest number is.
const WIDEST_SHOWN: &str =
    "{\"a\":{\"id\":\"i9\"},\"n\":\"item\",\"ns\":\"http://jabber.org/protocol/pubsub\"}";

/// The line of that name in a table; no bytes where there is none.
pub(crate) fn line_named(name: &str) -> &str {
    match name {
        "first" => FIRST,
        "second" => SECOND,
        "again" => AGAIN,
        "gone" => GONE,
        "purged" => PURGED,
        "other_purged" => OTHER_PURGED,
        "other_item" => OTHER_ITEM,
        "other_service" => OTHER_SERVICE,
        "other_address" => OTHER_ADDRESS,
        "zero" => ZERO,
        "padded" => PADDED,
        "wide" => WIDE,
        "widest" => WIDEST,
        "two_items" => TWO_ITEMS,
        "two_payloads" => TWO_PAYLOADS,
        "no_id" => NO_ID,
        "reply" => REPLY,
        "first_shown" => FIRST_SHOWN,
        "again_shown" => AGAIN_SHOWN,
        "second_shown" => SECOND_SHOWN,
        "widest_shown" => WIDEST_SHOWN,
        _ => "",
    }
}
