// What comes of an opening.
use crate::replaying::Observer;
use ps_base::Memory;
use ps_disk::Disk;
use ps_hall_state::{Service, State};
use ps_hall_store::Store;
use ps_journal::Trail;
use ps_outbox::Outboxes;
use ps_types::Entry;

/// The state and the store, before the first step, and the entries that the store had, each with its offset, which only proofs read.
pub struct Opened<D: Disk> {
    pub state: State,
    pub store: Store<D>,
    pub entries: Trail,
}

/// What entries leave: the service, and the notices that are not handed.
#[derive(Drop)]
pub struct Rebuilt {
    pub service: Service,
    pub queues: Outboxes,
}

/// What a store keeps: what its entries leave, and the entries, each with its offset, which only proofs read.
#[derive(Drop)]
pub struct Kept {
    pub rebuilt: Rebuilt,
    pub entries: Trail,
}

/// Why a store was not read.
#[derive(Clone, Copy, PartialEq, Eq, Debug)]
pub enum ReadWhy {
    /// The bytes of the store have no list of entries in which each is accepted: where.
    Damaged { at: u64 },
    /// The disk failed.
    Store,
    Memory,
}

/// The disk of a store that was opened to read it, the service after its entries, what saw them, and the entries, which only proofs read.
pub struct Observed<D: Disk, O: Observer + Drop> {
    pub disk: D,
    pub service: Service,
    pub observer: O,
    pub entries: Trail,
}

/// The disk of a store that was opened to read it, and its entries.
pub struct ReadOnly<D: Disk> {
    pub disk: D,
    pub entries: Vec<Entry>,
}

/// The disk of a store that was not opened to read it, and why.
pub struct ReadOnlyRefusal<D: Disk> {
    pub disk: D,
    pub why: ReadWhy,
}

/// The disk of a store that was read, and what the store keeps, or why it was not read.
pub struct StoreRead<D: Disk> {
    pub disk: D,
    pub outcome: Result<Kept, ReadWhy>,
}

impl From<Memory> for ReadWhy {
    ghost use Rattle.std.specs.Prelude.{◌≡◌};
    ghost use Rattle.ps_hall_open.specs.declared.opened.ReadWhy.TheVariants as read;

    ghost from_gives = { λ _ e. e ≡ read.Memory };

    fn from(_e: Memory) -> ReadWhy {
        ReadWhy::Memory
    }
}

/// Why a store was not opened.
#[derive(Clone, Copy, PartialEq, Eq, Debug)]
pub enum OpenWhy {
    /// The bytes of the store have no list of entries in which each is accepted: where.
    Damaged { at: u64 },
    /// The disk failed.
    Store,
    /// The store would pass its limit.
    Full,
    Memory,
}

impl From<ReadWhy> for OpenWhy {
    ghost use Rattle.std.specs.Prelude.{◌≡◌};
    ghost use Rattle.ps_hall_open.specs.Refused.{open_why};

    ghost from_gives = { λ why e. e ≡ open_why why };

    fn from(why: ReadWhy) -> OpenWhy {
        match why {
            ReadWhy::Damaged { at } => OpenWhy::Damaged { at },
            ReadWhy::Store => OpenWhy::Store,
            ReadWhy::Memory => OpenWhy::Memory,
        }
    }
}

/// The disk of a store that was not opened, and why.
pub struct OpenRefusal<D: Disk> {
    pub disk: D,
    pub why: OpenWhy,
}
