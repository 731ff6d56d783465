// What may happen, one step after the other.
use ps_types::{Arrival, Jid, Text};

/// Which of the two callers of a host: the one that reads its lines, or the one that writes to it.
#[derive(Clone, Copy, PartialEq, Eq, Debug)]
pub enum Role {
    Reader,
    Writer,
}

/// A step of the machine that `specs/Machine.antt` defines. No value of it need be made: it names what happened.
#[derive(Drop)]
pub enum Step {
    /// A line of the host arrived, and whether the journal was full for it.
    Arrive(Text, Arrival, bool),
    /// The first so many steps are made durable.
    Flush(u64),
    /// The first released reply of the host is taken.
    Take(Text),
    /// The first unhanded notice of the bare address is sent.
    Emit(Jid),
    /// The notice of the bare address that is in flight is recorded as handed.
    Record(Jid),
    /// The stream of the host ended.
    Gone(Text),
    /// A caller of the host ended, until the next crash.
    Ended(Text, Role),
    /// The journal met its first fault.
    Broken,
    /// A crash that leaves the first so many steps.
    Crash(u64),
}
