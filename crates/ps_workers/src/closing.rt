// The end of a hall, with the last frame.
ghost use Rattle.ps_hall.specs.Passes.{ArePasses, seats_in};
ghost use Rattle.ps_workers.specs.Closing.{HasEnded};

use ps_disk::Disk;
use ps_hall::{Hall, HostPasses, Opening};
use ps_hall_flush::frame_of;
use ps_hall_state::State;
use ps_hall_store::Store;

/// Ends the hall, and writes the entries that still wait unless the disk has failed. Where it fails now, the store tells.
pub(crate) fn close<B: Opening, D: Disk>(
    hall: Hall<B, D>,
    passes: Vec<HostPasses<B, D>>,
) -> (State, Store<D>)
    requires { ArePasses B.origin hall.twin passes.items }
    ensures { HasEnded B.origin result.0 result.1 (seats_in passes.items) }
{
    let (mut state, mut store) = hall.close(passes);
    let frame = frame_of(&mut state);
    if state.broken {
        return (state, store);
    }
    let _ = store.append(&frame);
    (state, store)
}
