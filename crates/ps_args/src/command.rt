// A command.
use ps_base::Listed;
use ps_types::Text;

/// A stream: its host in lower case, and the names of its source and its sink.
#[derive(Debug, Drop)]
pub struct Stream {
    pub host: Text,
    pub source: Text,
    pub sink: Text,
}

/// What the words ask for.
#[derive(Debug, Drop)]
pub enum Command {
    /// To serve these streams, by a service host, in lower case, over a store.
    Serve {
        service: Text,
        store: Text,
        streams: Listed<Stream>,
    },
    /// To rehearse so many stanzas of this seed.
    Rehearse {
        seed: u64,
        count: u64,
    },
    /// To write a store that begins with the rows of another, where an empty store is.
    Compact {
        store: Text,
        new: Text,
    },
}
