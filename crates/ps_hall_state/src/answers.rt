// What the calls answer.
use ps_base::{Bytes, Memory};
use ps_types::Jid;

/// How long the store may become, in bytes up to and including its closed gate: by changes, and by other entries.
#[derive(Clone, Copy, PartialEq, Eq, Debug)]
pub struct Limits {
    pub changes: u64,
    pub whole: u64,
}

/// What came of a line.
#[derive(Clone, Copy, PartialEq, Eq, Debug)]
pub enum Outcome {
    /// It made an entry, which is durable.
    Committed,
    /// It made none, and gets a reply.
    Answered,
    /// It made none, and gets no reply.
    Silent,
    /// It would have made one, for which the journal has no room.
    Full,
}

/// The number of entries at which a line was answered, and what came of it.
#[derive(Clone, Copy, PartialEq, Eq, Debug)]
pub struct Receipt {
    pub place: u64,
    pub outcome: Outcome,
}

/// Why a line was not taken.
#[derive(Clone, Copy, PartialEq, Eq, Debug)]
pub enum ArriveRefusal {
    /// The writer of the host has ended.
    Closed,
    /// The disk failed, in this call or an earlier one.
    Store,
    /// 64 replies of the host are not taken yet.
    Again,
    Memory,
}

impl From<Memory> for ArriveRefusal {
    ghost use Rattle.std.specs.Prelude.{◌≡◌};
    ghost use Rattle.ps_hall_state.specs.declared.answers.ArriveRefusal.TheVariants.{Memory};

    ghost from_gives = { λ e r. r ≡ Memory };

    fn from(_error: Memory) -> ArriveRefusal {
        ArriveRefusal::Memory
    }
}

/// What a writer is to do next.
#[derive(Drop)]
pub enum NextLine {
    Reply(Bytes),
    /// The line of a notice, which is then in hand, and its bare address.
    Notice(Jid, Bytes),
    /// There is nothing now, and a reader runs.
    NotYet,
    /// There is nothing, and no reader runs.
    Over,
}

/// Why an entry was not recorded.
#[derive(Clone, Copy, PartialEq, Eq, Debug)]
pub enum HandedRefusal {
    /// The disk failed, in this call or an earlier one.
    Store,
    /// The store would pass its limit.
    Full,
    Memory,
}

impl From<Memory> for HandedRefusal {
    ghost use Rattle.std.specs.Prelude.{◌≡◌};
    ghost use Rattle.ps_hall_state.specs.declared.answers.HandedRefusal.TheVariants.{Memory};

    ghost from_gives = { λ e r. r ≡ Memory };

    fn from(_error: Memory) -> HandedRefusal {
        HandedRefusal::Memory
    }
}
