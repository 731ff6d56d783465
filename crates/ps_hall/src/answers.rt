// What the calls answer.
use ps_base::Bytes;

/// What a writer is to do next.
#[derive(Drop)]
pub enum Next {
    Reply(Bytes),
    /// The line of a notice, which is then in hand.
    Notice(Bytes),
    /// There is nothing now, and a reader runs.
    NotYet,
    /// There is nothing, and no reader runs.
    Over,
}

/// Why a writer ended.
#[derive(Clone, Copy, PartialEq, Eq, Debug)]
pub enum EndCause {
    /// Its sink failed.
    WriteFault,
    /// The disk failed.
    Store,
    /// The store would have passed its limit.
    Full,
    Memory,
    /// There was nothing left, and no reader ran.
    Finished,
}
