// A state and a journal of it.
use ps_turn::Annals;

/// Which seat wrote it, and how many it had written before.
#[derive(Clone, Copy)]
pub struct Entry {
    pub by: u64,
    pub at: u64,
}

/// The state: all entries. Up to where a journal was begun is its mark.
#[derive(Drop)]
pub struct Diary {
    pub entries: Vec<Entry>,
    pub begun: u64,
    pub flushed: u64,
}

/// The journal: how many entries it has. It is firm as a whole.
#[derive(Drop)]
pub struct Journal {
    pub count: u64,
    pub begun: u64,
}

impl Annals for Diary {
    ghost use Rattle.std.specs.Prelude.{◌≡◌};

    type Item = Entry;

    ghost stands = { λ diary log. diary.entries.items ≡ log };

    ghost maker = { λ entry. entry.by };

    ghost firm = { λ diary. diary.flushed };

    ghost mark = { λ diary. (diary.begun, 0) };

    fn length(&self) -> u64 {
        self.entries.len() as u64
    }

    fn firm(&self) -> u64 {
        self.flushed
    }

    fn mark(&self) -> (u64, u64) {
        (self.begun, 0)
    }
}

impl Annals for Journal {
    ghost use Rattle.std.specs.Prelude.{◌≡◌, length};

    type Item = Entry;

    ghost stands = { λ journal list. journal.count ≡ length list };

    ghost maker = { λ entry. entry.by };

    ghost firm = { λ journal. journal.count };

    ghost mark = { λ journal. (journal.begun, 0) };

    fn length(&self) -> u64 {
        self.count
    }

    fn firm(&self) -> u64 {
        self.count
    }

    fn mark(&self) -> (u64, u64) {
        (self.begun, 0)
    }
}
