// How the state is given back with no deed, with a flush, or with a fault.
ghost use Rattle.std.specs.Prelude.{List, [], ◌∷◌};
ghost use Rattle.ps_model.specs.declared.steps.Step.{Step};
ghost use Rattle.ps_trace.specs.Own.{deeds};
ghost use Rattle.ps_trace.specs.declared.deed.Deed.{Deed};
ghost use Rattle.ps_twin.specs.Seats.{IsSeatOf, number_of};
ghost use Rattle.ps_hall_flush.specs.Homes.{bytes_in};
ghost use Rattle.ps_hall_flush.specs.Seat.{HasLeft, MayNote};

use crate::home::{Archive, Home, Opening};
use ps_disk::Disk;
use ps_twin::{Twin, TwinSeat};

/// With no deed.
pub(crate) fn leave_as_was<B: Opening, D: Disk>(
    twin: &Twin<Home<B>, Archive<B, D>>,
    seat: &mut TwinSeat<Home<B>, Archive<B, D>>,
    home: Home<B>,
)
    requires twin { IsSeatOf twin.now seat.old }
    requires may { MayNote B.origin twin.now seat.old home.state [] [] }
    ensures { HasLeft twin.now seat.old seat.new home.state [] }
{
    twin.leave(seat, home);
}

/// With a Flush of the first `upto` steps.
pub(crate) fn leave_flushed<B: Opening, D: Disk>(
    twin: &Twin<Home<B>, Archive<B, D>>,
    seat: &mut TwinSeat<Home<B>, Archive<B, D>>,
    home: Home<B>,
    upto: u64,
)
    ghost added: { List Deed }
    requires twin { IsSeatOf twin.now seat.old }
    requires may { MayNote B.origin twin.now seat.old home.state added
        (deeds (number_of seat.old) (bytes_in home.state) (Step.Flush upto ∷ [])) }
    ensures { HasLeft twin.now seat.old seat.new home.state added }
{
    twin.leave(seat, home);
}

/// With a Broken.
pub(crate) fn leave_broken<B: Opening, D: Disk>(
    twin: &Twin<Home<B>, Archive<B, D>>,
    seat: &mut TwinSeat<Home<B>, Archive<B, D>>,
    home: Home<B>,
)
    ghost added: { List Deed }
    requires twin { IsSeatOf twin.now seat.old }
    requires may { MayNote B.origin twin.now seat.old home.state added
        (deeds (number_of seat.old) (bytes_in home.state) (Step.Broken ∷ [])) }
    ensures { HasLeft twin.now seat.old seat.new home.state added }
{
    twin.leave(seat, home);
}
