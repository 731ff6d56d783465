// The two values, and the lists of deeds that they stand for.
ghost use Rattle.std.specs.Prelude.{◌≡◌};
ghost use Rattle.ps_hall_flush.specs.Homes.{numbered};

use ps_disk::Disk;
use ps_hall_state::State;
use ps_hall_store::Store;
use ps_trace::Deed;
use ps_turn::Annals;
use std::marker::{Brand, PhantomData};

/// Names what stood when the hall was opened. No value is made of it: each program picks it where it opens the hall.
pub trait Opening {
    ghost use Rattle.ps_hall_flush.specs.Origin.{Origin};

    ghost origin: { Origin };
}

impl Opening for Brand {
    ghost use Rattle.ps_hall_flush.specs.Origin.{nowhere};

    ghost origin = { nowhere };
}

// The first number of a mark.
fn first_number(broken: bool, count: u64) -> u64
    ensures { result ≡ numbered broken count }
{
    if broken { u64::MAX } else { count }
}

/// The state, of a hall that was opened over what `B` names.
pub struct Home<B: Opening> {
    pub state: State,
    of: PhantomData<B>,
}

impl<B: Opening> Drop for Home<B> {
    fn drop(self) {
        let Self { state: _, of: _ } = self;
    }
}

impl<B: Opening> Home<B> {
    pub fn new(state: State) -> Home<B>
        ensures { result.state ≡ state }
    {
        Home {
            state,
            of: PhantomData,
        }
    }

    pub fn into_state(self) -> State
        ensures { result ≡ self.state }
    {
        let Self { state, of: _ } = self;
        state
    }
}

impl<B: Opening> Annals for Home<B> {
    ghost use Rattle.ps_hall_flush.specs.Homes.{HomeStands, state_mark};

    type Item = Deed;

    ghost stands = { λ home log. HomeStands B.origin home.state log };

    ghost maker = { λ deed. deed.by };

    ghost firm = { λ home. home.state.flushed };

    ghost mark = { λ home. state_mark home.state };

    fn length(&self) -> u64 {
        self.state.steps
    }

    fn firm(&self) -> u64 {
        self.state.flushed
    }

    fn mark(&self) -> (u64, u64) {
        (
            first_number(self.state.broken, self.state.count),
            self.state.length,
        )
    }
}

/// The store, of a hall that was opened over what `B` names.
pub struct Archive<B: Opening, D: Disk> {
    pub store: Store<D>,
    of: PhantomData<B>,
}

impl<B: Opening, D: Disk> Archive<B, D> {
    pub fn new(store: Store<D>) -> Archive<B, D>
        ensures { result.store ≡ store }
    {
        Archive {
            store,
            of: PhantomData,
        }
    }

    pub fn into_store(self) -> Store<D>
        ensures { result ≡ self.store }
    {
        let Self { store, of: _ } = self;
        store
    }
}

impl<B: Opening, D: Disk> Annals for Archive<B, D> {
    ghost use Rattle.ps_hall_flush.specs.Homes.{ArchiveHolds, store_mark};
    ghost use Rattle.ps_hall_store.specs.Stand as store;

    type Item = Deed;

    ghost stands = { λ archive log. ArchiveHolds B.origin archive.store log };

    ghost maker = { λ deed. deed.by };

    ghost firm = { λ archive. store.firm_of archive.store };

    ghost mark = { λ archive. store_mark archive.store };

    fn length(&self) -> u64 {
        self.store.steps()
    }

    fn firm(&self) -> u64 {
        self.store.firm()
    }

    fn mark(&self) -> (u64, u64) {
        let (count, length) = self.store.mark();
        (first_number(self.store.is_broken(), count), length)
    }
}
