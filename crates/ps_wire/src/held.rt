// Bytes that a source gave and that no line has taken yet.
ghost use Rattle.std.specs.Prelude.{◌≡◌, ◌≢◌, ◌<◌, ◌≤◌, [], length, drop, take, slice_index, IfSome, IfNone, IfOk, MatchResult};
ghost use Rattle.std.specs.Io.KnownBytes.{Consumes, Keeps, IsAtEnd};
ghost use Rattle.ps_base.specs.Causes.{HasCause};
ghost use Rattle.ps_types.specs.Lines.{NoNewline};

use crate::Source;
use ps_base::{Failed, Memory};
use std::alloc::Global;
use std::marker::Model;

/// The most bytes that one read takes.
const ROOM: usize = 4096;

/// A room whose middle holds the bytes. A contract sees these alone.
#[derive(Drop)]
pub struct Held {
    room: Vec<u8>,
    from: usize,
    to: usize,
}

impl Model for Held {
    ghost use Rattle.std.specs.Prelude.{List, ℕ, ◌-◌, ◌<◌, ◌≤◌, drop, take, vec_len};

    ghost Value = { List ℕ };

    ghost view = { λ h. take (h.to - h.from) (drop h.from h.room.items) };

    ghost invariant = { λ h. (h.from ≤ h.to) × (h.to ≤ vec_len h.room) × (0 < vec_len h.room) };
}

impl Held {
    /// Nothing held, with room for a read.
    ///
    /// # Errors
    /// Memory, where there is none for the room.
    pub fn new(alloc: Global) -> Result<Held, Memory>
        ensures { IfOk result (λ h. h ≡ []) }
    {
        let room = vec![in alloc; 0u8; ROOM]?;
        Ok(Held {
            room,
            from: 0,
            to: 0,
        })
    }

    /// The bytes that were read and aren't taken yet.
    pub fn bytes(&self) -> &[u8]
        ensures { result.now ≡ self.now }
    {
        &self.room[self.from..self.to]
    }

    /// Takes so many bytes from the front.
    pub fn drop_front(&mut self, count: usize)
        requires { count ≤ length self.old }
        ensures { self.new ≡ drop count self.old }
    {
        self.from += count;
    }

    /// Reads the next bytes, at most so many, in the place of those that were held.
    pub fn refill<S: Source>(&mut self, source: &mut S, most: u64) -> Result<usize, Failed>
        requires { 0 < most }
        ensures count { IfOk result (λ n. (n ≡ length self.new) × (n ≤ most)) }
        ensures bytes { MatchResult result
            (λ n. Consumes (S.left source.old) (S.left source.new) self.new × (n ≡ 0 → IsAtEnd (S.left source.new)))
            (λ _. Keeps (S.left source.old) (S.left source.new)) }
        ensures cause { HasCause (S.faults source.old) (S.faults source.new) result }
    {
        self.from = 0;
        self.to = 0;
        let length = self.room.len();
        let most = usize::try_from(most).unwrap_or(length).min(length);
        let count = read_front(source, &mut self.room, most)?;
        self.to = count;
        Ok(count)
    }
}

/// Reads into the front of the room, at most so many bytes.
fn read_front<S: Source>(source: &mut S, room: &mut [u8], most: usize) -> Result<usize, Failed>
    requires some { 0 < most }
    requires fits { most ≤ length room.old }
    ensures count { IfOk result (λ n. n ≤ most) }
    ensures bytes { MatchResult result
        (λ n. Consumes (S.left source.old) (S.left source.new) (take n room.new)
        × (n ≡ 0 → IsAtEnd (S.left source.new)))
        (λ _. Keeps (S.left source.old) (S.left source.new)) }
    ensures cause { HasCause (S.faults source.old) (S.faults source.new) result }
{
    source.read(&mut room[..most])
}

/// Where the first newline stands.
pub fn find_newline(bytes: &[u8]) -> Option<usize>
    ensures found { IfSome result (λ i. (i < length bytes.now) × (slice_index bytes.now i ≡ 10)) }
    ensures before { IfSome result (λ i. NoNewline (take i bytes.now)) }
    ensures none { IfNone result (NoNewline bytes.now) }
{
    for (i, b) in bytes.iter().enumerate() {
        if *b == b'\n' {
            return Some(i);
        }
    }
    None
}
