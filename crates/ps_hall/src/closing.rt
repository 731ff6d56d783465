// The end of a hall.
ghost use Rattle.std.specs.Prelude.{◌≡◌, length};
ghost use Rattle.ps_twin.specs.Seats.{AreAll};
ghost use Rattle.ps_hall.specs.Closed.{HasClosed};
ghost use Rattle.ps_hall.specs.Passes.{ArePasses, seats_in};

use crate::hall::{Hall, HostPasses, SeatRoom};
use ps_disk::Disk;
use ps_hall_flush::{Archive, Home, Opening};
use ps_hall_state::State;
use ps_hall_store::Store;
use ps_twin::{Twin, TwinSeat};

// The two values, once all seats are there.
fn take_apart<B: Opening, D: Disk>(
    twin: Twin<Home<B>, Archive<B, D>>,
    seats: Vec<TwinSeat<Home<B>, Archive<B, D>>>,
) -> (State, Store<D>)
    requires { AreAll twin seats.items }
    ensures { HasClosed B.origin result.0 result.1 seats.items }
{
    let (home, archive) = twin.close(seats);
    (home.into_state(), archive.into_store())
}

impl<B: Opening, D: Disk> SeatRoom<B, D> {
    // The seats of the passes of as many hosts as it has room for.
    fn gather(self, passes: Vec<HostPasses<B, D>>) -> Vec<TwinSeat<Home<B>, Archive<B, D>>>
        requires { length passes.items ≡ length B.origin.hosts }
        ensures { result.items ≡ seats_in passes.items }
    {
        let SeatRoom { seats } = self;
        let mut seats = seats;
        for both in passes {
            let (reader, writer) = both.into_passes();
            seats.push_reserved(reader.into_seat());
            seats.push_reserved(writer.into_seat());
        }
        seats
    }
}

impl<B: Opening, D: Disk> Hall<B, D> {
    /// Ends the hall, given all its passes, and gives its two values back. It takes no memory.
    pub fn close(self, passes: Vec<HostPasses<B, D>>) -> (State, Store<D>)
        requires { ArePasses B.origin self.twin passes.items }
        ensures { HasClosed B.origin result.0 result.1 (seats_in passes.items) }
    {
        let Hall {
            twin,
            room,
            bells: _,
        } = self;
        take_apart(twin, room.into_inner().gather(passes))
    }
}
