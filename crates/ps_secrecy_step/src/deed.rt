// What happens to a service, and what it says of it.
use ps_types::{Arrival, Bytes, Entry, Notice, Text};

/// What happens to a service.
#[derive(Drop)]
pub enum Deed {
    /// A line arrives on the stream of the host, with its number there: it is answered, and the entry that it makes counts.
    Asked {
        host: Text,
        line: u64,
        arrival: Arrival,
    },
    /// An entry comes. It counts where it is accepted, and else it does nothing.
    Done(Entry),
}

/// What a service says of a deed.
#[derive(Drop)]
pub struct Said {
    /// The printed reply, where there is one.
    pub replies: Vec<Bytes>,
    /// The notices of the entry that the deed makes, to whomever they are.
    pub notices: Vec<Notice>,
}
