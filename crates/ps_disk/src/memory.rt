// A disk in memory. It keeps its calls, so that it can tell what a crash after any of them may leave.
ghost use Rattle.std.specs.Prelude.{◌≡◌, ◌⊎◌, ◌++◌, ◌∷◌, ◌+◌, ◌≤◌, ◌↔◌, [], length, take, drop, Contains, IsErr, IfOk, OnOk, OnErr};
ghost use Rattle.ps_base.specs.Causes.{next_count, HasCause};
ghost use Rattle.ps_disk.specs.Disk.{Holds, TornAt, MayHaveOneMore};
ghost use Rattle.ps_disk.specs.Calls.{new_disk, state_of, state_after, syncs_in, LeftSince, MayBeLeft, TimeGoesOn, IsSynced, IsPending, kept_with, with_failed_call, with_refusal, outcome, step};
ghost use Rattle.ps_disk.specs.Counts.{IsCall, IsReading};
ghost use Rattle.ps_disk.specs.Filled.{IsTornBy, BeginsWithin};

use crate::replay::{Call, Kept, replay, written_over};
use crate::{Disk, Torn};
use ps_base::{Bytes, Failed, Memory};
use std::alloc::Global;
use std::marker::Model;

/// A disk in memory that keeps a record of its calls and fails at those that it is told to fail.
pub struct MemDisk {
    alloc: Global,
    start: Vec<u8>,
    kept: Vec<Kept>,
    bytes: Vec<u8>,
    failing: Vec<u64>,
    calls: u64,
    faults: u64,
    refused: u64,
}

// By hand, so that a disk is let go by one call wherever a function ends.
impl Drop for MemDisk {
    fn drop(self) {
        let MemDisk {
            alloc: _,
            start: _,
            kept: _,
            bytes: _,
            failing: _,
            calls: _,
            faults: _,
            refused: _,
        } = self;
    }
}

impl Model for MemDisk {
    ghost use Rattle.ps_disk.specs.Calls.{Recorded};
    ghost use Rattle.ps_disk.specs.Filled.{CallsAreKept};

    ghost Value = { Recorded };

    ghost view = { λ d. record {
      start = d.start.items;
      kept = d.kept.items;
      failing = d.failing.items;
      calls = d.calls;
      faults = d.faults;
      refused = d.refused;
    } };

    ghost invariant = { λ d. CallsAreKept d.start.items d.bytes.items d.kept.items d.calls };
}

impl MemDisk {
    /// A disk with these bytes, nothing pending and no faults, whose calls of these numbers fail. The first call has number 1.
    pub fn new(alloc: Global, bytes: &[u8], failing: &[u64]) -> Result<MemDisk, Memory>
        ensures { IfOk result (λ d. d ≡ new_disk bytes.now failing.now) }
    {
        let start = bytes.to_vec(alloc)?;
        let bytes = bytes.to_vec(alloc)?;
        let failing = failing.to_vec(alloc)?;
        Ok(MemDisk {
            alloc,
            start,
            kept: Vec::new(alloc),
            bytes,
            failing,
            calls: 0,
            faults: 0,
            refused: 0,
        })
    }

    /// What a read gives.
    pub fn bytes(&self) -> &[u8]
        ensures { result.now ≡ (state_of self.now).seen }
    {
        &self.bytes
    }

    /// How many calls there were, those that failed among them. The number stands still at its type's end.
    pub fn calls(&self) -> u64
        ensures { result ≡ self.now.calls }
    {
        self.calls
    }

    /// How often a call gave up because memory ran out. The number stands still at its type's end.
    pub fn refused(&self) -> u64
        ensures { result ≡ self.now.refused }
    {
        self.refused
    }

    /// The disk that a crash after the first so many calls leaves, with nothing pending and no failing calls.
    pub fn crashed(&self, alloc: Global, calls: u64, torn: Torn) -> Result<MemDisk, Memory>
        requires { calls ≤ self.now.calls }
        ensures which { IfOk result (λ d. d ≡ new_disk (outcome torn (state_after calls self.now)) []) }
        ensures one { IfOk result (λ d. MayBeLeft (state_after calls self.now) d.start) }
        ensures bytes { IfOk result (λ d. IsTornBy torn (state_after calls self.now) d.start) }
    {
        let bytes = self.left_by_crash(alloc, calls, torn)?;
        MemDisk::new(alloc, &bytes, &[])
    }

    fn left_by_crash(&self, alloc: Global, calls: u64, torn: Torn) -> Result<Vec<u8>, Memory>
        ensures which { IfOk result (λ bytes. bytes.items ≡ outcome torn (state_after calls self.now)) }
        ensures bytes { IfOk result (λ bytes. IsTornBy torn (state_after calls self.now) bytes.items) }
    {
        let byte = match torn {
            Torn::Lost | Torn::Whole => 0,
            Torn::Filled(byte) => byte,
        };
        let outcomes = replay(alloc, &self.start, &self.kept, calls, byte)?;
        match torn {
            Torn::Lost => Ok(outcomes.lost),
            Torn::Whole => Ok(outcomes.whole),
            Torn::Filled(_) => Ok(outcomes.filled),
        }
    }

    // Counts a call, which fails where its number is one of those that fail.
    fn begin(&mut self) -> Result<(), Failed>
        ensures ok { OnOk result (self.new ≡ record self.old { calls = next_count self.old.calls }) }
        ensures err { OnErr result (self.new ≡ with_failed_call self.old) }
        ensures fails { IsErr result ↔ Contains self.old.failing (next_count self.old.calls) }
        ensures later { self.old.faults ≤ self.new.faults }
    {
        self.calls = self.calls.saturating_add(1);
        if self.failing.contains(&self.calls) {
            self.faults = self.faults.saturating_add(1);
            return Err(Failed);
        }
        Ok(())
    }

    // Counts that a call gave up because memory ran out.
    fn give_up(&mut self)
        ensures counts { self.new ≡ with_refusal self.old }
        ensures later { self.old.faults ≤ self.new.faults }
    {
        self.faults = self.faults.saturating_add(1);
        self.refused = self.refused.saturating_add(1);
    }

    // Keeps a call that doesn't change what is seen.
    fn keep(&mut self, call: Call) -> Result<(), Failed>
        requires same { (step (state_of self.old) call).seen ≡ (state_of self.old).seen }
        requires within { BeginsWithin (state_of self.old) call }
        ensures ok { OnOk result (self.new ≡ record self.old { kept = kept_with self.old.kept self.old.calls call }) }
        ensures err { OnErr result (self.new ≡ with_refusal self.old) }
        ensures later { self.old.faults ≤ self.new.faults }
    {
        let number = self.calls;
        match self.kept.push(Kept { number, call }) {
            Ok(()) => Ok(()),
            Err(_) => {
                self.give_up();
                Err(Failed)
            }
        }
    }

    // Writes a piece, and keeps the call.
    fn keep_write(&mut self, at: u64, piece: &[u8]) -> Result<(), Memory>
        requires { at ≤ length (state_of self.old).seen }
        ensures ok { OnOk result
            (self.new ≡ record self.old { kept = kept_with self.old.kept self.old.calls (Call.Wrote at piece.now) }) }
        ensures err { OnErr result (self.new ≡ self.old) }
    {
        let number = self.calls;
        let next = written_over(self.alloc, &self.bytes, at, piece)?;
        let bytes = piece.to_vec(self.alloc)?;
        let call = Call::Wrote(at, Bytes::from_vec(bytes));
        self.kept.push(Kept { number, call })?;
        self.bytes = next;
        Ok(())
    }
}

impl Disk for MemDisk {
    ghost use Rattle.ps_disk.specs.SeenLeft.{seen_left, left_now, only_left_now};

    ghost tells = { Unit {0} };

    ghost seen = { λ d. (state_of d).seen };

    ghost synced = { λ d. (state_of d).synced };

    ghost written = { λ d. (state_of d).written };

    ghost moment = { λ d. length d.kept };

    ghost left_since = { LeftSince };

    ghost syncs = { λ d. syncs_in d.kept };

    ghost faults = { λ d. d.faults };

    ghost seen_left = { seen_left };

    ghost counts_now = { left_now };

    ghost only_now = { only_left_now };

    fn len(&mut self) -> Result<u64, Failed>
        ensures length { IfOk result (λ n. n ≡ length (state_of self.old).seen) }
        ensures seen { (state_of self.new).seen ≡ (state_of self.old).seen }
        ensures synced { (state_of self.new).synced ≡ (state_of self.old).synced }
        ensures written { (state_of self.new).written ≡ (state_of self.old).written }
        ensures syncs { syncs_in self.new.kept ≡ syncs_in self.old.kept }
        ensures time { TimeGoesOn self.old self.new }
        ensures cause { HasCause self.old.faults self.new.faults result }
        ensures reads { IsReading self.old self.new result }
    {
        self.begin()?;
        Ok(self.bytes.len() as u64)
    }

    fn read_at(&mut self, at: u64, room: &mut [u8]) -> Result<usize, Failed>
        ensures bound { IfOk result (λ n. n ≤ length room.new) }
        ensures bytes { IfOk result (λ n. take n room.new ≡ take (length room.new) (drop at (state_of self.old).seen)) }
        ensures seen { (state_of self.new).seen ≡ (state_of self.old).seen }
        ensures synced { (state_of self.new).synced ≡ (state_of self.old).synced }
        ensures written { (state_of self.new).written ≡ (state_of self.old).written }
        ensures syncs { syncs_in self.new.kept ≡ syncs_in self.old.kept }
        ensures time { TimeGoesOn self.old self.new }
        ensures cause { HasCause self.old.faults self.new.faults result }
        ensures reads { IsReading self.old self.new result }
    {
        self.begin()?;
        Ok(read_front(&self.bytes, at, room))
    }

    fn write_at(&mut self, at: u64, piece: &[u8]) -> Result<(), Failed>
        requires { at ≤ length (state_of self.old).seen }
        ensures ok { OnOk result (Holds (state_of self.old).seen at piece.now (state_of self.new).seen) }
        ensures failed { OnErr result (TornAt at (length piece.now) (state_of self.old).seen (state_of self.new).seen) }
        ensures synced { (state_of self.new).synced ≡ (state_of self.old).synced }
        ensures counted { OnOk result
            ((state_of self.new).written ≡ (at, length piece.now) ∷ (state_of self.old).written) }
        ensures maybe { MayHaveOneMore (at, length piece.now) (state_of self.old).written (state_of self.new).written }
        ensures syncs { syncs_in self.new.kept ≡ syncs_in self.old.kept }
        ensures time { TimeGoesOn self.old self.new }
        ensures cause { HasCause self.old.faults self.new.faults result }
        ensures kept { OnOk result (self.new.kept ≡ kept_with self.old.kept self.new.calls (Call.Wrote at piece.now)) }
        ensures call { IsCall self.old self.new result }
    {
        match self.begin() {
            Err(Failed) => match self.keep(Call::Failed(at, piece.len())) {
                Ok(()) => Err(Failed),
                Err(Failed) => Err(Failed),
            },
            Ok(()) => match self.keep_write(at, piece) {
                Ok(()) => Ok(()),
                Err(Memory) => {
                    self.give_up();
                    Err(Failed)
                }
            },
        }
    }

    fn sync(&mut self) -> Result<(), Failed>
        ensures seen { (state_of self.new).seen ≡ (state_of self.old).seen }
        ensures ok { OnOk result (IsSynced (state_of self.old) (state_of self.new)) }
        ensures failed { OnErr result (IsPending (state_of self.old) (state_of self.new)) }
        ensures counted { OnOk result (syncs_in self.new.kept ≡ syncs_in self.old.kept + 1) }
        ensures time { TimeGoesOn self.old self.new }
        ensures cause { HasCause self.old.faults self.new.faults result }
        ensures kept { OnOk result (self.new.kept ≡ kept_with self.old.kept self.new.calls Call.Synced) }
        ensures call { IsCall self.old self.new result }
    {
        match self.begin() {
            Err(Failed) => Err(Failed),
            Ok(()) => match self.keep(Call::Synced) {
                Ok(()) => Ok(()),
                Err(Failed) => Err(Failed),
            },
        }
    }

    fn fault_count(&self) -> u64
        ensures { result ≡ self.now.faults }
    {
        self.faults
    }
}

// Copies as many of the bytes from the offset on as the room has.
fn read_front(bytes: &[u8], at: u64, room: &mut [u8]) -> usize
    ensures bound { result ≤ length room.new }
    ensures bytes { take result room.new ≡ take (length room.new) (drop at bytes.now) }
{
    let at = at as usize;
    if at >= bytes.len() {
        return 0;
    }
    let rest = &bytes[at..];
    let count = room.len().min(rest.len());
    room[..count].copy_from_slice(&rest[..count]);
    count
}
