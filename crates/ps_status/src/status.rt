// How a run ends.
ghost use Rattle.std.specs.Prelude.{◌≡◌, ◌≤◌, length};
ghost use Rattle.ps_status.specs.Statuses.{code_of, report_of, words_of};

use arrayvec::ArrayString;
use itoa::Buffer;

/// How a run ended.
#[derive(Clone, Copy, Debug, PartialEq, Eq)]
pub enum Status {
    /// Every source was read to its end, and all that a command writes and reports is whole.
    Done,
    /// The words are no command.
    Usage,
    /// An opening failed.
    OpenFault,
    /// A feed has a record at this byte that a follower can't take.
    FeedBad { at: u64 },
    /// The store spells no list of entries: it is damaged at this byte.
    StoreDamaged { at: u64 },
    /// The store failed.
    StoreFault,
    /// The store has no room for what begins or ends a run, or the new store none for the rows.
    StoreFull,
    /// The store that was to be a new one isn't an empty one.
    Occupied,
    /// A source or a sink failed, or a report of what a command tells.
    StreamFault,
    /// A source gave 2^40 bytes.
    StreamLong,
    /// Memory ran out.
    Memory,
}

/// A line that is reported; the longest is the one of usage.
pub type Report = ArrayString<320>;

impl Status {
    /// The status by which the program ends.
    pub fn code(&self) -> u8
        ensures { result ≡ code_of self.now }
    {
        match self {
            Status::Done => 0,
            Status::Usage => 2,
            Status::StreamFault => 3,
            Status::StoreFault => 4,
            Status::StoreDamaged { at: _ } => 5,
            Status::StoreFull => 6,
            Status::Memory => 7,
            Status::StreamLong => 8,
            Status::OpenFault => 9,
            Status::Occupied => 10,
            Status::FeedBad { at: _ } => 11,
        }
    }

    // The words of the report; the offset of a damage or of a record comes after them.
    fn words(&self) -> &'static str
        ensures words { result.now ≡ words_of self.now }
        ensures short { length result.now ≤ 266 }
    {
        match self {
            Status::Done => "",
            Status::Usage => {
                "usage: pubsubd serve --service HOST --store PATH HOST IN OUT [HOST IN OUT].. \
                 | rehearse SEED COUNT | compact PATH NEW | explain PATH ADDRESS SERVICE NODE \
                 | readers PATH SERVICE NODE | feed PATH FROM OUT | follow HOST FEED IN OUT \
                 | mirror SERVICE NODE ADDRESS MAX IN\n"
            }
            Status::OpenFault => "open fault\n",
            Status::FeedBad { at: _ } => "feed bad at ",
            Status::StoreDamaged { at: _ } => "store damaged at ",
            Status::StoreFault => "store fault\n",
            Status::StoreFull => "store full\n",
            Status::Occupied => "store occupied\n",
            Status::StreamFault => "stream fault\n",
            Status::StreamLong => "stream too long\n",
            Status::Memory => "out of memory\n",
        }
    }

    /// The line that is reported, with its newline; nothing where all was done.
    pub fn report(&self) -> Report
        ensures { result.bytes ≡ report_of self.now }
    {
        let mut line = Report::new();
        line.push_str(self.words());
        if let Status::StoreDamaged { at } | Status::FeedBad { at } = self {
            let mut digits = Buffer::new();
            line.push_str(digits.format(*at));
            line.push_str("\n");
        }
        line
    }
}
