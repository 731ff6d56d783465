// The shared object, and a caller's token.
ghost use Rattle.std.specs.Prelude.{◌≡◌, ◌≤◌, ◌+◌, [], length, vec_capacity};
ghost use Rattle.ps_twin.specs.Seats.{seats_of};

use crate::bell::Bells;
use ps_disk::Disk;
use ps_hall_flush::{Archive, Home, Opening};
use ps_twin::{Twin, TwinSeat};
use ps_types::{Jid, Text};
use std::sync::Mutex;

/// The service over its store, shared by the callers of its hosts.
pub struct Hall<B: Opening, D: Disk> {
    pub(crate) twin: Twin<Home<B>, Archive<B, D>>,
    // Nobody takes this lock: it lets threads share what they could only send.
    pub(crate) room: Mutex<SeatRoom<B, D>>,
    pub(crate) bells: Bells,
    ghost two: { seats_of twin ≡ length B.origin.hosts + length B.origin.hosts },
}

// SeatRoom for all seats, which come back at the end.
#[derive(Drop)]
pub(crate) struct SeatRoom<B: Opening, D: Disk> {
    pub(crate) seats: Vec<TwinSeat<Home<B>, Archive<B, D>>>,
    ghost empty: { seats.items ≡ [] },
    ghost enough: { length B.origin.hosts + length B.origin.hosts ≤ vec_capacity seats },
}

/// A caller's token: its seat, its host and the place of that among the hosts that are served, and the bare addresses whose notices it has in hand, in
/// the order in which it was told them.
pub struct Pass<B: Opening, D: Disk> {
    pub(crate) seat: TwinSeat<Home<B>, Archive<B, D>>,
    pub(crate) at: usize,
    pub(crate) host: Text,
    pub(crate) in_hand: Vec<Jid>,
    // Whether other hosts may have something to say of what it laid since its last flush.
    pub(crate) concerns_others: bool,
}

impl<B: Opening, D: Disk> Drop for Pass<B, D> {
    fn drop(self) {
        let Self {
            seat: _,
            at: _,
            host: _,
            in_hand: _,
            concerns_others: _,
        } = self;
    }
}

impl<B: Opening, D: Disk> Pass<B, D> {
    pub(crate) fn into_seat(self) -> TwinSeat<Home<B>, Archive<B, D>>
        ensures { result ≡ self.seat }
    {
        let Self {
            seat,
            at: _,
            host: _,
            in_hand: _,
            concerns_others: _,
        } = self;
        seat
    }
}

/// The passes of a host: its reader's and its writer's.
pub struct HostPasses<B: Opening, D: Disk> {
    pub reader: Pass<B, D>,
    pub writer: Pass<B, D>,
}

impl<B: Opening, D: Disk> Drop for HostPasses<B, D> {
    fn drop(self) {
        let Self {
            reader: _,
            writer: _,
        } = self;
    }
}

impl<B: Opening, D: Disk> HostPasses<B, D> {
    /// Both, the reader's first.
    pub fn into_passes(self) -> (Pass<B, D>, Pass<B, D>)
        ensures { result ≡ (self.reader, self.writer) }
    {
        let Self { reader, writer } = self;
        (reader, writer)
    }
}
