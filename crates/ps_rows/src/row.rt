// What a row tells of itself, what is asked of rows, and how one is changed.
ghost use Rattle.std.specs.Prelude.{◌≡◌, ◌<◌, ◌^◌, ℕ, Bool};

use crate::index::Index;

/// A row, with a digest for each index. The digests go by a seed, so that who chooses names cannot choose their digests.
pub trait Row: Drop {
    ghost use Rattle.std.specs.Prelude.{◌≡◌, ◌<◌, ◌^◌, ℕ, Bool};
    ghost use Rattle.ps_rows.specs.Kin.{IsKin};
    ghost use Rattle.ps_rows.specs.declared.index.Index.{Index};

    ghost by: { ℕ → Index → Self → ℕ };

    ghost kin: { Self → Self → Bool };

    fn digest(&self, seed: u64, index: Index) -> u64
        ensures digest { result ≡ by seed index self.now }
        ensures small { result < 2 ^ 63 };

    /// Whether the two rows are of one node.
    fn is_kin(&self, other: &Self) -> bool
        ensures { result ≡ kin self.now other.now };

    ghost kin_is: { IsKin kin };
}

/// A test on rows, and the digest of the rows that pass it.
pub trait Ask<R> {
    ghost passes: { Self → R → Bool };

    ghost seeks: { ℕ → Self → ℕ };

    fn passes(&self, row: &R) -> bool
        ensures { result ≡ passes self.now row.now };

    fn digest(&self, seed: u64) -> u64
        ensures { result ≡ seeks seed self.now };
}

/// A change of a row.
pub trait Change<R>: Drop {
    ghost makes: { Self → R → R };

    /// The row once it is changed.
    fn make(self, row: R) -> R
        ensures { result ≡ makes self row };
}
