// A command.
use ps_args::Stream;
use ps_base::Listed;
use ps_types::{Jid, NodeKey, Text};

/// Whose verdicts on a node are asked for, and of which store.
#[derive(Debug, Drop)]
pub struct ExplainWords {
    pub store: Text,
    pub who: Jid,
    pub node: NodeKey,
}

/// The node whose readers are asked for, and the store.
#[derive(Debug, Drop)]
pub struct ReadersWords {
    pub store: Text,
    pub node: NodeKey,
}

/// A store, the place from which its entries are fed, and the name of the sink that gets their records.
#[derive(Debug, Drop)]
pub struct FeedWords {
    pub store: Text,
    pub from: u64,
    pub sink: Text,
}

/// A follower's stream: its host in lower case, and the names of the feed, the source of lines and the sink.
#[derive(Debug, Drop)]
pub struct FollowWords {
    pub host: Text,
    pub feed: Text,
    pub source: Text,
    pub sink: Text,
}

/// A node, the address that is told of it, how many items are kept at most (1 to 1000), and the name of the source.
#[derive(Debug, Drop)]
pub struct MirrorWords {
    pub node: NodeKey,
    pub who: Jid,
    pub most: u64,
    pub source: Text,
}

/// What the words ask for.
#[derive(Debug, Drop)]
pub enum Command {
    /// To serve these streams, by a service host, in lower case, over a store.
    Serve {
        service: Text,
        store: Text,
        streams: Listed<Stream>,
    },
    /// To rehearse so many stanzas of this seed.
    Rehearse {
        seed: u64,
        count: u64,
    },
    /// To write a store that begins with the rows of another, where an empty store is.
    Compact {
        store: Text,
        new: Text,
    },
    /// To tell how the verdicts for an address on a node came about.
    Explain(ExplainWords),
    /// To tell who may read a node.
    Readers(ReadersWords),
    /// To write the records of a store's entries.
    Feed(FeedWords),
    /// To take records, and answer lines at the entries that were taken.
    Follow(FollowWords),
    /// To tell which items of a node its subscriber has, by the notices in a source.
    Mirror(MirrorWords),
}
