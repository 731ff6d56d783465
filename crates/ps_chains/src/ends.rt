// The ends of the chain of each digest.
ghost use Rattle.std.specs.Prelude.{◌≡◌, ℕ, ◌+◌, ◌<◌, ◌≤◌, ◌^◌, Option, None, is_some, if◌then◌else◌, cond, length, nat_eq};
ghost use Rattle.std.specs.Map.{lookup};
ghost use Rattle.indexmap.specs.IndexMap.{spare};
ghost use Rattle.ps_chains.specs.Marks.{capacity};
ghost use Rattle.ps_chains.specs.AtEnds.{ends_at, ends_with, ends_without, beyond, first_or};

use crate::small::Link;
use indexmap::IndexMap;

/// The first and the last place of a digest, and how many places it has.
#[derive(Clone, Copy, Drop)]
pub struct Ends {
    pub first: Link,
    pub last: Link,
    pub count: u32,
}

fn beyond(prior: Link, next: Link, first: Link) -> Link
    ensures { result ≡ beyond prior next first }
{
    match prior.get() {
        None => next,
        Some(_) => first,
    }
}

fn first_or(first: Link, place: usize) -> Link
    requires few { place + 1 < 2 ^ 32 }
    ensures { result ≡ first_or first place }
{
    match first.get() {
        None => Link::to(place),
        Some(_) => first,
    }
}

impl Ends {
    /// The ends once a place is gone, between its prior and its next.
    pub fn without(&self, prior: Link, next: Link) -> Ends
        requires some { 1 ≤ self.now.count }
        ensures { result ≡ ends_without prior next self.now }
    {
        Ends {
            first: beyond(prior, next, self.first),
            last: beyond(next, prior, self.last),
            count: self.count - 1,
        }
    }

    /// The ends once a place is added.
    pub fn with(&self, place: usize) -> Ends
        requires few { place + 1 < 2 ^ 32 }
        requires fewer { self.now.count + 1 < 2 ^ 32 }
        ensures { result ≡ ends_with place self.now }
    {
        Ends {
            first: first_or(self.first, place),
            last: Link::to(place),
            count: self.count + 1,
        }
    }
}

/// The first and the last place of a digest; both are none where no row has it.
pub fn ends_of(ends: &IndexMap<u64, Ends>, digest: u64) -> Ends
    ensures { result ≡ ends_at digest ends.now.entries }
{
    match ends.get(&digest) {
        Some(ends) => *ends,
        None => Ends {
            first: Link::none(),
            last: Link::none(),
            count: 0,
        },
    }
}

/// Writes the ends of a digest. It takes no memory where the digest has ends, or the map has room.
pub fn put(ends: &mut IndexMap<u64, Ends>, digest: u64, value: Ends)
    requires room { lookup (nat_eq digest) ends.old.entries ≡ None → 0 < spare ends.old }
    ensures ends { (q : ℕ) → ends_at q ends.new.entries ≡ cond (nat_eq digest q) value (ends_at q ends.old.entries) }
    ensures few { length ends.new.entries ≡ length ends.old.entries
        + (if is_some (lookup (nat_eq digest) ends.old.entries) then 0 else 1) }
    ensures room { capacity ends.old ≤ capacity ends.new }
{
    match ends.get_mut(&digest) {
        Some(slot) => *slot = value,
        None => {
            let _ = ends.insert(digest, value);
        }
    }
}
