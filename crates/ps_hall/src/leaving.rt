// How a call gives the state back, with the deeds that it adds.
ghost use Rattle.std.specs.Prelude.{List, [], ◌∷◌};
ghost use Rattle.ps_model.specs.declared.steps.Role.{Role};
ghost use Rattle.ps_model.specs.declared.steps.Step.{Step};
ghost use Rattle.ps_trace.specs.Own.{deeds};
ghost use Rattle.ps_trace.specs.declared.deed.Deed.{Deed};
ghost use Rattle.ps_twin.specs.Seats.{IsSeatOf, number_of};
ghost use Rattle.ps_hall_flush.specs.Homes.{bytes_in};
ghost use Rattle.ps_hall_flush.specs.Seat.{HasLeft, MayNote};
ghost use Rattle.ps_hall.specs.Steps.{gone_steps, lay_steps, next_steps, record_steps};

use ps_base::Memory;
use ps_disk::Disk;
use ps_hall_flush::{Archive, Home, Opening};
use ps_hall_state::{ArriveRefusal, HandedRefusal, NextLine, Receipt};
use ps_model::Role;
use ps_twin::{Twin, TwinSeat};
use ps_types::{Arrival, Jid, Text};

/// With what came of a line.
pub(crate) fn leave_laid<B: Opening, D: Disk>(
    twin: &Twin<Home<B>, Archive<B, D>>,
    seat: &mut TwinSeat<Home<B>, Archive<B, D>>,
    home: Home<B>,
    host: &Text,
    arrival: &Arrival,
    outcome: &Result<Receipt, ArriveRefusal>,
)
    ghost added: { List Deed }
    requires twin { IsSeatOf twin.now seat.old }
    requires may { MayNote B.origin twin.now seat.old home.state added
        (deeds (number_of seat.old) (bytes_in home.state) (lay_steps host.now arrival.now outcome.now)) }
    ensures { HasLeft twin.now seat.old seat.new home.state added }
{
    twin.leave(seat, home);
}

/// With what a writer got.
pub(crate) fn leave_told<B: Opening, D: Disk>(
    twin: &Twin<Home<B>, Archive<B, D>>,
    seat: &mut TwinSeat<Home<B>, Archive<B, D>>,
    home: Home<B>,
    host: &Text,
    next: &Result<NextLine, Memory>,
)
    ghost added: { List Deed }
    requires twin { IsSeatOf twin.now seat.old }
    requires may { MayNote B.origin twin.now seat.old home.state added
        (deeds (number_of seat.old) (bytes_in home.state) (next_steps host.now next.now)) }
    ensures { HasLeft twin.now seat.old seat.new home.state added }
{
    twin.leave(seat, home);
}

/// With what came of recording the notices in hand: a Record of each of so many, or the end of the writer for want of room.
pub(crate) fn leave_recorded<B: Opening, D: Disk>(
    twin: &Twin<Home<B>, Archive<B, D>>,
    seat: &mut TwinSeat<Home<B>, Archive<B, D>>,
    home: Home<B>,
    host: &Text,
    hand: &Vec<Jid>,
    outcome: &Result<usize, HandedRefusal>,
)
    ghost added: { List Deed }
    requires twin { IsSeatOf twin.now seat.old }
    requires may { MayNote B.origin twin.now seat.old home.state added
        (deeds (number_of seat.old) (bytes_in home.state) (record_steps host.now hand.now.items outcome.now)) }
    ensures { HasLeft twin.now seat.old seat.new home.state added }
{
    twin.leave(seat, home);
}

/// With what came of a reader's Gone: that, or the end of the reader.
pub(crate) fn leave_gone<B: Opening, D: Disk>(
    twin: &Twin<Home<B>, Archive<B, D>>,
    seat: &mut TwinSeat<Home<B>, Archive<B, D>>,
    home: Home<B>,
    host: &Text,
    outcome: &Result<(), HandedRefusal>,
)
    ghost added: { List Deed }
    requires twin { IsSeatOf twin.now seat.old }
    requires may { MayNote B.origin twin.now seat.old home.state added
        (deeds (number_of seat.old) (bytes_in home.state) (gone_steps host.now outcome.now)) }
    ensures { HasLeft twin.now seat.old seat.new home.state added }
{
    twin.leave(seat, home);
}

/// With the end of a host's caller.
pub(crate) fn leave_ended<B: Opening, D: Disk>(
    twin: &Twin<Home<B>, Archive<B, D>>,
    seat: &mut TwinSeat<Home<B>, Archive<B, D>>,
    home: Home<B>,
    host: &Text,
    role: Role,
)
    ghost added: { List Deed }
    requires twin { IsSeatOf twin.now seat.old }
    requires may { MayNote B.origin twin.now seat.old home.state added
        (deeds (number_of seat.old) (bytes_in home.state) (Step.Ended host.now role ∷ [])) }
    ensures { HasLeft twin.now seat.old seat.new home.state added }
{
    twin.leave(seat, home);
}
