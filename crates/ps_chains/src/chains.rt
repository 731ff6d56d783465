// The list of marks.
ghost use Rattle.std.specs.Prelude.{◌≡◌, ℕ, ◌+◌, ◌<◌, ◌≤◌, [], ◌∷◌, ◌++◌, ◌^◌, Option, Some, None, IfOk, OnOk, length, slice_set};
ghost use Rattle.ps_chains.specs.Marks.{mark_at, count_of, FirstFrom, LastBelow};
ghost use Rattle.ps_chains.specs.Chained.{IsChained, room_of};

use crate::ends::{Ends, ends_of, put};
use crate::links::{add, clear, link_at, read, set};
use crate::small::{Link, Mark};
use indexmap::IndexMap;
use ps_base::Memory;
use std::alloc::Global;
use std::marker::Model;

/// Places that are marked with digests, how many more are marked without memory, and the links among the places of a digest.
#[derive(Drop)]
pub struct Chains {
    marks: Vec<Mark>,
    nexts: Vec<Link>,
    priors: Vec<Link>,
    ends: IndexMap<u64, Ends>,
}

impl Model for Chains {
    ghost use Rattle.std.specs.Prelude.{ℕ, Option};
    ghost use Rattle.ps_base.specs.Rows.{Table};
    ghost use Rattle.ps_chains.specs.Chained.{IsChained, room_of};

    ghost Value = { Table (Option ℕ) };

    ghost view = { λ t. record { rows = t.marks.items; spare = room_of t.marks t.nexts t.priors t.ends } };

    ghost invariant = { λ t. IsChained t.marks.items t.nexts.items t.priors.items t.ends };
}

/// How many places there are at most: a place is kept in four bytes, where one number stands for none.
const MOST: usize = 0xFFFF_FFFE;

fn link(
    marks: &mut Vec<Mark>,
    nexts: &mut Vec<Link>,
    priors: &mut Vec<Link>,
    ends: &mut IndexMap<u64, Ends>,
    digest: u64,
)
    requires chained { IsChained marks.old.items nexts.old.items priors.old.items ends.old }
    requires small { digest < 2 ^ 63 }
    requires room { 0 < room_of marks.old nexts.old priors.old ends.old }
    ensures marks { marks.new.items ≡ marks.old.items ++ Some digest ∷ [] }
    ensures chained { IsChained marks.new.items nexts.new.items priors.new.items ends.new }
    ensures room { room_of marks.old nexts.old priors.old ends.old ≤ room_of marks.new nexts.new priors.new ends.new
        + 1 }
{
    let place = marks.len();
    let at = ends_of(ends, digest);
    let last = at.last;
    set(nexts, last, Link::to(place));
    put(ends, digest, at.with(place));
    add(nexts, Link::none());
    add(priors, last);
    add(marks, Mark::of(digest));
}

fn unlink(
    marks: &mut Vec<Mark>,
    nexts: &mut Vec<Link>,
    priors: &mut Vec<Link>,
    ends: &mut IndexMap<u64, Ends>,
    place: usize,
    digest: u64,
)
    requires chained { IsChained marks.old.items nexts.old.items priors.old.items ends.old }
    requires marked { mark_at marks.old.items place ≡ Some digest }
    ensures marks { marks.new.items ≡ slice_set marks.old.items place None }
    ensures chained { IsChained marks.new.items nexts.new.items priors.new.items ends.new }
    ensures room { room_of marks.old nexts.old priors.old ends.old ≤ room_of marks.new nexts.new priors.new ends.new }
{
    let prior = link_at(priors, place);
    let next = link_at(nexts, place);
    let at = ends_of(ends, digest);
    set(nexts, prior, next);
    set(priors, next, prior);
    put(ends, digest, at.without(prior, next));
    clear(marks, place);
}

impl Chains {
    /// No places. It takes no memory.
    pub fn new(alloc: Global) -> Chains
        ensures empty { result.rows ≡ [] }
    {
        Chains {
            marks: Vec::new(alloc),
            nexts: Vec::new(alloc),
            priors: Vec::new(alloc),
            ends: IndexMap::new(alloc),
        }
    }

    /// How many places there are, those without a mark too.
    pub fn len(&self) -> usize
        ensures len { result ≡ length self.now.rows }
    {
        self.marks.len()
    }

    /// The first place of a digest.
    pub fn first(&self, digest: u64) -> Option<usize>
        ensures first { FirstFrom (mark_at self.now.rows) digest 0 result }
    {
        ends_of(&self.ends, digest).first.get()
    }

    /// The last place of a digest.
    pub fn last(&self, digest: u64) -> Option<usize>
        ensures last { LastBelow (mark_at self.now.rows) digest (length self.now.rows) result }
    {
        ends_of(&self.ends, digest).last.get()
    }

    /// How many places a digest has.
    pub fn count(&self, digest: u64) -> usize
        ensures count { result ≡ count_of digest self.now.rows }
    {
        ends_of(&self.ends, digest).count as usize
    }

    /// The next place of the digest of a place.
    pub fn next(&self, place: usize) -> Option<usize>
        ensures next { (digest : ℕ) → mark_at self.now.rows place ≡ Some digest
            → FirstFrom (mark_at self.now.rows) digest (place + 1) result }
    {
        link_at(&self.nexts, place).get()
    }

    /// The last place before a place of the digest of that place.
    pub fn prior(&self, place: usize) -> Option<usize>
        ensures prior { (digest : ℕ) → mark_at self.now.rows place ≡ Some digest
            → LastBelow (mark_at self.now.rows) digest place result }
    {
        link_at(&self.priors, place).get()
    }

    /// Makes room, so that at least this many more places are marked without memory.
    pub fn reserve(&mut self, places: usize) -> Result<(), Memory>
        ensures rows { self.new.rows ≡ self.old.rows }
        ensures room { OnOk result (places ≤ self.new.spare) }
        ensures kept { self.old.spare ≤ self.new.spare }
    {
        if MOST.saturating_sub(self.marks.len()) < places {
            return Err(Memory);
        }
        self.marks.try_reserve(places)?;
        self.nexts.try_reserve(places)?;
        self.priors.try_reserve(places)?;
        self.ends.reserve(self.marks.capacity() - self.ends.len())?;
        Ok(())
    }

    /// Marks one more place with a digest. It takes no memory.
    pub fn push(&mut self, digest: u64)
        requires small { digest < 2 ^ 63 }
        requires room { 0 < self.old.spare }
        ensures rows { self.new.rows ≡ self.old.rows ++ Some digest ∷ [] }
        ensures room { self.old.spare ≤ self.new.spare + 1 }
    {
        link(
            &mut self.marks,
            &mut self.nexts,
            &mut self.priors,
            &mut self.ends,
            digest,
        );
    }

    /// Takes the mark of a place away, if it has one. It takes no memory.
    pub fn remove(&mut self, place: usize)
        ensures rows { self.new.rows ≡ slice_set self.old.rows place None }
        ensures room { self.old.spare ≤ self.new.spare }
    {
        if let Some(digest) = read(&self.marks, place) {
            unlink(
                &mut self.marks,
                &mut self.nexts,
                &mut self.priors,
                &mut self.ends,
                place,
                digest,
            );
        }
    }

    /// Takes all places away, and keeps their room. It takes no memory.
    pub fn clear(&mut self)
        ensures empty { self.new.rows ≡ [] }
        ensures room { length self.old.rows + self.old.spare ≤ self.new.spare }
    {
        self.marks.clear();
        self.nexts.clear();
        self.priors.clear();
        self.ends.clear();
    }
}
