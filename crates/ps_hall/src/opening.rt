// The opening of a hall.
ghost use Rattle.std.specs.Prelude.{◌≡◌, ◌≤◌, ◌^◌, [], length, map, vec_capacity, IfErr, IfOk, None};
ghost use Rattle.ps_twin.specs.Seats.{AreNew};
ghost use Rattle.ps_hall.specs.Passes.{AreFresh, IsPassOf, named};
ghost use Rattle.ps_hall.specs.Start.{MayStart};

use crate::bell::Bells;
use crate::hall::{Hall, HostPasses, Pass, SeatRoom};
use ps_base::Memory;
use ps_disk::Disk;
use ps_hall_flush::{Archive, Home, Opening};
use ps_hall_state::State;
use ps_hall_store::Store;
use ps_twin::{Twin, TwinRefusal, TwinSeat};
use ps_types::Text;
use std::alloc::Global;
use std::sync::Mutex;

/// Memory ran out, the only refusal of [`Hall::new`]. Both values come back.
pub struct NoHall<D: Disk> {
    pub state: State,
    pub store: Store<D>,
}

// A host's name, for each of its callers.
#[derive(Drop)]
pub(crate) struct Names {
    pub(crate) reader: Text,
    pub(crate) writer: Text,
}

fn names_at(host: &Text) -> Result<Names, Memory>
    ensures { IfOk result (λ names. names ≡ named host.now) }
{
    Ok(Names {
        reader: host.clone()?,
        writer: host.clone()?,
    })
}

fn names_of(alloc: Global, hosts: &[Text]) -> Result<Vec<Names>, Memory>
    ensures { IfOk result (λ v. v.items ≡ map named hosts.now) }
{
    let mut names = Vec::new(alloc);
    for host in hosts {
        names.push(names_at(host)?)?;
    }
    Ok(names)
}

// A pass with nothing in hand.
fn pass_of<B: Opening, D: Disk>(
    alloc: Global,
    seat: TwinSeat<Home<B>, Archive<B, D>>,
    at: usize,
    host: Text,
) -> Pass<B, D>
    ensures { IsPassOf at host seat result }
{
    Pass {
        seat,
        at,
        host,
        in_hand: Vec::new(alloc),
        concerns_others: false,
    }
}

// All that a hall needs beside its two values.
#[derive(Drop)]
struct Ready<B: Opening, D: Disk> {
    names: Vec<Names>,
    passes: Vec<HostPasses<B, D>>,
    room: SeatRoom<B, D>,
    bells: Bells,
}

fn make_ready<B: Opening, D: Disk>(alloc: Global, hosts: &[Text]) -> Result<Ready<B, D>, Memory>
    requires hosts { B.origin.hosts ≡ hosts.now }
    requires few { length hosts.now ≤ 2 ^ 30 }
    ensures names { IfOk result (λ r. r.names.items ≡ map named B.origin.hosts) }
    ensures passes { IfOk result (λ r. r.passes.items ≡ []) }
    ensures room { IfOk result (λ r. length B.origin.hosts ≤ vec_capacity r.passes) }
{
    let names = names_of(alloc, hosts)?;
    let passes = Vec::with_capacity(alloc, hosts.len())?;
    let seats = Vec::with_capacity(alloc, hosts.len() * 2)?;
    let bells = Bells::new(alloc, hosts.len())?;
    Ok(Ready {
        names,
        passes,
        room: SeatRoom { seats },
        bells,
    })
}

impl<B: Opening, D: Disk> Hall<B, D> {
    // The seats become the passes of the hosts.
    fn hand_out(
        &self,
        alloc: Global,
        names: Vec<Names>,
        seats: Vec<TwinSeat<Home<B>, Archive<B, D>>>,
        mut passes: Vec<HostPasses<B, D>>,
    ) -> Vec<HostPasses<B, D>>
        requires names { names.items ≡ map named B.origin.hosts }
        requires seats { AreNew self.now.twin seats.items }
        requires empty { passes.items ≡ [] }
        requires room { length B.origin.hosts ≤ vec_capacity passes }
        ensures { AreFresh B.origin self.now.twin result.items }
    {
        let mut seats = seats.into_iter();
        for name in names {
            let Names { reader, writer } = name;
            let at = passes.len();
            let reader = pass_of(alloc, seats.next().unwrap(), at, reader);
            let writer = pass_of(alloc, seats.next().unwrap(), at, writer);
            passes.push_reserved(HostPasses { reader, writer });
        }
        passes
    }

    /// A hall over a state and a store that were just opened, and the passes of its hosts, in their order. None has made a call.
    ///
    /// The only refusal is that memory ran out.
    pub fn new(
        alloc: Global,
        state: State,
        store: Store<D>,
        hosts: &[Text],
    ) -> Result<(Hall<B, D>, Vec<HostPasses<B, D>>), NoHall<D>>
        requires { MayStart B.origin state store hosts.now }
        ensures passes { IfOk result (λ r. AreFresh B.origin r.0.twin r.1.items) }
        ensures refused { IfErr result (λ r. (r.state ≡ state) × (r.store ≡ store)) }
    {
        let Ok(ready) = make_ready::<B, D>(alloc, hosts) else {
            return Err(NoHall { state, store });
        };
        let Ready {
            names,
            passes,
            room,
            bells,
        } = ready;
        let seats = hosts.len() as u32 * 2;
        match Twin::new(alloc, Home::new(state), Archive::new(store), seats) {
            Ok((twin, seats)) => {
                let hall = Hall {
                    twin,
                    room: Mutex::new(room),
                    bells,
                };
                let passes = hall.hand_out(alloc, names, seats, passes);
                Ok((hall, passes))
            }
            Err(TwinRefusal { value, journal }) => Err(NoHall {
                state: value.into_state(),
                store: journal.into_store(),
            }),
        }
    }
}
