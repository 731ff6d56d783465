// A place or none, and a digest or none, in as few bytes.
ghost use Rattle.std.specs.Prelude.{◌≡◌, ◌+◌, ◌<◌, ◌^◌, Option, Some, None, IfSome};

use std::marker::Model;

/// A place, or none, in four bytes: 0 for none, and otherwise one more than the place.
#[derive(Clone, Copy)]
pub struct Link {
    code: u32,
}

impl Model for Link {
    ghost use Rattle.std.specs.Prelude.{ℕ, Option};
    ghost use Rattle.std.proofs.Common.{ap};
    ghost use Rattle.ps_chains.specs.Small.{unpacked, packed, packed-unpacked};

    ghost Value = { Option ℕ };

    ghost view = { λ t. unpacked t.code };

    ghost inverse = { λ o. record { code = packed o } };

    ghost inverse_ok = { λ t _. ap (λ n. record { code = n }) (packed-unpacked t.code) };
}

impl Link {
    /// No place.
    pub fn none() -> Link
        ensures { result ≡ None }
    {
        Link { code: 0 }
    }

    /// A place.
    pub fn to(place: usize) -> Link
        requires few { place + 1 < 2 ^ 32 }
        ensures { result ≡ Some place }
    {
        Link {
            code: place as u32 + 1,
        }
    }

    /// The place that it leads to.
    pub fn get(self) -> Option<usize>
        ensures { result ≡ self }
    {
        if self.code == 0 {
            None
        } else {
            Some((self.code - 1) as usize)
        }
    }
}

/// A digest, or none, in eight bytes: 0 for none, and otherwise one more than the digest.
#[derive(Clone, Copy)]
pub struct Mark {
    code: u64,
}

impl Model for Mark {
    ghost use Rattle.std.specs.Prelude.{ℕ, Option};
    ghost use Rattle.std.proofs.Common.{ap};
    ghost use Rattle.ps_chains.specs.Small.{unpacked, packed, packed-unpacked};

    ghost Value = { Option ℕ };

    ghost view = { λ t. unpacked t.code };

    ghost inverse = { λ o. record { code = packed o } };

    ghost inverse_ok = { λ t _. ap (λ n. record { code = n }) (packed-unpacked t.code) };
}

impl Mark {
    /// No digest.
    pub fn none() -> Mark
        ensures { result ≡ None }
    {
        Mark { code: 0 }
    }

    /// A digest.
    pub fn of(digest: u64) -> Mark
        requires small { digest < 2 ^ 63 }
        ensures { result ≡ Some digest }
    {
        Mark { code: digest + 1 }
    }

    /// The digest that it keeps.
    pub fn get(self) -> Option<u64>
        ensures { result ≡ self }
    {
        if self.code == 0 {
            None
        } else {
            Some(self.code - 1)
        }
    }
}
