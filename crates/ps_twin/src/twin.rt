ghost use Rattle.std.specs.Prelude.{◌≡◌, length};
ghost use Rattle.ps_twin.specs.Twins.{IsSized};

use crate::part::Part;
use crate::plays::{
    Count, Draw, JournalDraw, JournalLook, JournalPass, JournalRaise, Law, Look, Pass, Raise,
    Seating,
};
use crate::view::TwinView;
use atomic_table::{Refused, Table};
use ps_turn::{Annals, Names, Words, draw, wait_for, wake};
use std::alloc::Global;
use std::marker::Brand;
use std::sync::Wait;
use std::thread::yield_now;

// The ticket of the state that is served.
const SERVING: usize = 1;

// The length of the history.
const COUNT: usize = 2;

// The ticket of the journal that is served.
const JOURNAL_SERVING: usize = 4;

// So many items are firm at least.
const FIRM: usize = 5;

// A history of so many items is given to nobody.
const MOST: u64 = 1 << 63;

// The slots, and the line of each.
const STATE: usize = 0;

const JOURNAL: usize = 1;

const LINE: Words = Words {
    ticket: 0,
    serving: SERVING,
    bell: 6,
};

const JOURNAL_LINE: Words = Words {
    ticket: 3,
    serving: JOURNAL_SERVING,
    bell: 7,
};

/// A lock on a state and a journal, for a fixed number of seats.
pub struct Twin<V: Annals, J: Annals<Item = V::Item>> {
    table: Table<Part<V, J>, TwinView<V::Item>, u32, Law, Global>,
    ghost sized: { IsSized table.shared.table_id table.shared.key },
}

/// A caller's place under one twin, and what it has seen. One thread at a time has it.
pub struct TwinSeat<V: Annals, J: Annals<Item = V::Item>> {
    seat: atomic_table::Seat<Part<V, J>, TwinView<V::Item>>,
    len: u64,
}

impl<V: Annals, J: Annals<Item = V::Item>> Drop for TwinSeat<V, J> {
    fn drop(self) {
        let Self { seat: _, len: _ } = self;
    }
}

impl<V: Annals, J: Annals<Item = V::Item>> TwinSeat<V, J> {
    fn into_inner(self) -> atomic_table::Seat<Part<V, J>, TwinView<V::Item>>
        ensures { result ≡ self.seat }
    {
        let Self { seat, len: _ } = self;
        seat
    }
}

/// Memory ran out, the only refusal of [`Twin::new`]. Both values come back.
#[derive(Drop)]
pub struct TwinRefusal<V, J> {
    pub value: V,
    pub journal: J,
}

impl<V: Annals, J: Annals<Item = V::Item>> Twin<V, J> {
    ghost use Rattle.std.specs.Prelude.{◌≡◌, ◌<◌, ◌≤◌, ◌+◌, ◌^◌, ◌%◌, true, ◌++◌, ◌∷◌, List, [], length, vec_capacity, IfOk, IfErr};
    ghost use Rattle.ps_turn.specs.declared.view.Stage.TheVariants.{Idle, Waiting, Holding};
    ghost use Rattle.ps_turn.specs.History.{Later, AllBy};
    ghost use Rattle.ps_twin.specs.Twins.{Prefix, tfounder, HasRaised, HasTaken, HasTakenJournal};
    ghost use Rattle.ps_twin.specs.Seats.{seen_of, number_of, list_of, firm_of, mark_of, known_of, seats_of, made_of, IsSeatOf, IsAs, HasMade, IsMadeBy, IsFree, IsOut, HasState, HasJournal, HoldsJournal, TookState, GaveState, MayOpen, MayLeave, MayLeaveJournal, AreNew, AreAll, Gathers};

    /// A twin over two values that stand for the empty list and have the same mark, of which the state counts on nothing as firm, and its
    /// seats, numbered from 0 in the order of the list. None has seen anything.
    ///
    /// The only refusal is that memory ran out.
    pub fn new(
        alloc: Global,
        value: V,
        journal: J,
        seats: u32,
    ) -> Result<(Twin<V, J>, Vec<TwinSeat<V, J>>), TwinRefusal<V, J>>
        requires some { 0 < seats }
        requires both { MayOpen V.stands V.firm V.mark J.stands J.mark value journal }
        ensures seats { IfOk result (λ r. AreNew r.0 r.1.items) }
        ensures count { IfOk result (λ r. length r.1.items ≡ seats) }
        ensures refused { IfErr result (λ r. (r.value ≡ value) × (r.journal ≡ journal)) }
    {
        let mut list = Vec::new(alloc);
        let mut slots = Vec::new(alloc);
        if list.reserve(seats as usize).is_err() || slots.reserve(2).is_err() {
            slots.destroy_empty();
            return Err(TwinRefusal { value, journal });
        }
        slots.push_reserved(Part::of_state(value));
        slots.push_reserved(Part::of_journal(journal));
        match Table::new(alloc, &[0, 0, 0, 0, 0, 0, 0, 0], slots, &seats) {
            Ok((table, seat)) => {
                let twin = Twin { table };
                let founder = TwinSeat { seat, len: 0 };
                let list = twin.seat_all(founder, list, seats);
                Ok((twin, list))
            }
            Err(Refused { mut slots }) => {
                let journal = slots.pop().unwrap().into_journal();
                let value = slots.pop().unwrap().into_state();
                slots.destroy_empty();
                Err(TwinRefusal { value, journal })
            }
        }
    }

    // The founder makes another seat.
    fn another(&self, founder: &mut TwinSeat<V, J>) -> TwinSeat<V, J>
        requires twin { IsSeatOf self.now founder.old × IsOut founder.old }
        requires room { (0 < made_of founder.old) × (made_of founder.old < seats_of self.now) }
        ensures founder { HasMade founder.old founder.new }
        ensures new { IsMadeBy founder.old result }
    {
        let seat = self.table.shared.split_seat::<Seating>(&mut founder.seat);
        TwinSeat { seat, len: 0 }
    }

    // The founder, and then the others, which it makes.
    fn seat_all(
        &self,
        founder: TwinSeat<V, J>,
        mut list: Vec<TwinSeat<V, J>>,
        seats: u32,
    ) -> Vec<TwinSeat<V, J>>
        requires founder { IsAs self.now tfounder founder }
        requires room { (list.items ≡ []) × (seats ≤ vec_capacity list) × (seats ≡ seats_of self.now) }
        ensures { AreNew self.now result.items }
    {
        list.push_reserved(founder);
        for count in 1..seats {
            let seat = self.another(&mut list[0]);
            list.push_reserved(seat);
        }
        list
    }

    // Waits until the ticket is served, and takes the state.
    fn take<R: Wait>(
        &self,
        rt: &R,
        seat: &mut atomic_table::Seat<Part<V, J>, TwinView<V::Item>>,
        ticket: u64,
    ) -> V
        requires twin { (seat.old.table_id ≡ self.now.table.shared.table_id) × (seat.old.me.0.base.live ≡ true) }
        requires waits { (seat.old.me.0.base.place.stage ≡ Waiting)
            × (ticket ≡ seat.old.me.0.base.place.ticket % 2 ^ 64) }
        ensures twin { seat.new.table_id ≡ seat.old.table_id }
        ensures took { HasTaken V.stands V.firm V.mark J.stands J.firm J.mark V.maker seat.old.me result seat.new.me }
    {
        let words = &self.table.shared;
        wait_for::<Look, Part<V, J>, TwinView<V::Item>, u32, Law, R>(rt, words, seat, LINE, ticket);
        words.exchange(seat, STATE, Part::nothing()).into_state()
    }

    /// Waits for the state, and gives way to other threads meanwhile. The seat may have the journal.
    ///
    /// The state stands for what the seat has then seen: a list that begins with all that it had seen before, with no item of its own making
    /// after that. Where the seat has the journal, that list begins with the journal's list too, and the state has the mark with which this
    /// seat left it last, or else the journal's. Where that list has 2^63 items or more, the call waits for ever.
    pub fn enter<R: Wait>(&self, rt: &R, seat: &mut TwinSeat<V, J>) -> V
        requires twin { IsSeatOf self.now seat.old }
        requires out { IsOut seat.old }
        ensures twin { IsSeatOf self.now seat.new }
        ensures number { number_of seat.new ≡ number_of seat.old }
        ensures held { HasState seat.new }
        ensures few { length (seen_of seat.new) < 2 ^ 63 }
        ensures value { V.stands result (seen_of seat.new) }
        ensures later { Later V.maker (number_of seat.old) (seen_of seat.old) (seen_of seat.new) }
        ensures firm { V.firm result ≤ known_of seat.new }
        ensures known { known_of seat.old ≤ known_of seat.new }
        ensures mark { mark_of seat.new ≡ V.mark result }
        ensures hand { TookState seat.old seat.new }
        ensures front { HoldsJournal seat.old → Prefix (list_of seat.old) (seen_of seat.new) }
        ensures marked { HoldsJournal seat.old → V.mark result ≡ mark_of seat.old }
    {
        let words = &self.table.shared;
        let ticket = draw::<Draw, Part<V, J>, TwinView<V::Item>, u32, Law, R>(
            rt,
            words,
            &mut seat.seat,
            LINE,
        );
        let value = self.take(rt, &mut seat.seat, ticket);
        let count = words.load::<Count>(&mut seat.seat, COUNT);
        seat.len = count;
        if count >= MOST {
            for _ in rt.forever() {
                yield_now();
            }
            unreachable!()
        }
        value
    }

    // Adds the items that `G` names to the history.
    fn raise<G: Names<V::Item>>(
        &self,
        seat: &mut atomic_table::Seat<Part<V, J>, TwinView<V::Item>>,
        by: u64,
    )
        requires twin { seat.old.table_id ≡ self.now.table.shared.table_id }
        requires held { (seat.old.me.0.base.live ≡ true) × (seat.old.me.0.base.place.stage ≡ Holding) }
        requires count { (by ≡ length G.added) × (length seat.old.me.0.base.seen + by < 2 ^ 64) }
        requires own { AllBy V.maker seat.old.me.0.base.number G.added }
        ensures twin { seat.new.table_id ≡ seat.old.table_id }
        ensures seen { HasRaised G.added seat.old.me seat.new.me }
    {
        self.table.shared.fetch_add::<Raise<G>>(seat, COUNT, by);
    }

    /// Gives the state back, and waits for nobody. It stands for the list at `enter` followed by the items `added`, fewer than 2^63, of the
    /// seat's own making. The caller's proof names them.
    ///
    /// It counts on no more items as firm than at `enter`, or than the journal had that this seat gave back last. Its mark is the one at
    /// `enter`, unless the seat has the journal.
    pub fn leave(&self, seat: &mut TwinSeat<V, J>, value: V)
        ghost added: { List V.Item }
        requires { MayLeave V.stands V.firm V.mark V.maker self.now seat.old value added }
        ensures twin { IsSeatOf self.now seat.new }
        ensures number { number_of seat.new ≡ number_of seat.old }
        ensures out { IsOut seat.new }
        ensures seen { seen_of seat.new ≡ seen_of seat.old ++ added }
        ensures known { known_of seat.new ≡ known_of seat.old }
        ensures mark { mark_of seat.new ≡ V.mark value }
        ensures hand { GaveState seat.old seat.new }
    {
        let words = &self.table.shared;
        let len = value.length();
        words
            .exchange(&mut seat.seat, STATE, Part::of_state(value))
            .into_nothing();
        self.raise::<Brand>(&mut seat.seat, len - seat.len);
        words.fetch_add::<Pass>(&mut seat.seat, SERVING, 1);
        wake(words, &mut seat.seat, LINE);
        seat.len = len;
    }

    /// The length of what the seat has seen, which the history begins with. It waits for nobody.
    pub fn seen(&self, seat: &TwinSeat<V, J>) -> u64
        requires { IsSeatOf self.now seat.now }
        ensures { result ≡ length (seen_of seat.now) }
    {
        seat.len
    }

    // Waits until the ticket is served, and takes the journal.
    fn take_journal<R: Wait>(
        &self,
        rt: &R,
        seat: &mut atomic_table::Seat<Part<V, J>, TwinView<V::Item>>,
        ticket: u64,
    ) -> J
        requires twin { seat.old.table_id ≡ self.now.table.shared.table_id }
        requires free { (seat.old.me.0.base.live ≡ true) × (seat.old.me.1 ≡ []) }
        requires waits { (seat.old.me.0.journal.stage ≡ Waiting) × (ticket ≡ seat.old.me.0.journal.ticket % 2 ^ 64) }
        ensures twin { seat.new.table_id ≡ seat.old.table_id }
        ensures took { HasTakenJournal V.stands V.firm V.mark J.stands J.firm J.mark V.maker seat.old.me result
            seat.new.me }
    {
        let words = &self.table.shared;
        wait_for::<JournalLook, Part<V, J>, TwinView<V::Item>, u32, Law, R>(
            rt,
            words,
            seat,
            JOURNAL_LINE,
            ticket,
        );
        words
            .exchange(seat, JOURNAL, Part::nothing())
            .into_journal()
    }

    /// Waits for the journal, and gives way to other threads meanwhile. The seat has neither value.
    ///
    /// No fewer items of it are firm than of any journal that the seat gave back, and than any state counted on that it had.
    pub fn enter_journal<R: Wait>(&self, rt: &R, seat: &mut TwinSeat<V, J>) -> J
        requires twin { IsSeatOf self.now seat.old }
        requires free { IsFree seat.old }
        ensures twin { IsSeatOf self.now seat.new }
        ensures number { number_of seat.new ≡ number_of seat.old }
        ensures seen { seen_of seat.new ≡ seen_of seat.old }
        ensures held { HasJournal seat.new }
        ensures list { J.stands result (list_of seat.new) }
        ensures firm { firm_of seat.new ≡ J.firm result }
        ensures known { known_of seat.new ≡ known_of seat.old }
        ensures least { known_of seat.old ≤ J.firm result }
        ensures mark { mark_of seat.new ≡ J.mark result }
    {
        let words = &self.table.shared;
        let ticket = draw::<JournalDraw, Part<V, J>, TwinView<V::Item>, u32, Law, R>(
            rt,
            words,
            &mut seat.seat,
            JOURNAL_LINE,
        );
        self.take_journal(rt, &mut seat.seat, ticket)
    }

    /// Gives the journal back, and waits for nobody. The seat doesn't have the state.
    ///
    /// The journal's list begins with the one at `enter_journal`, and what the seat has seen begins with it. No fewer items of it are firm than
    /// there. Its mark is the one with which the seat left the state since then, or else the one that it had.
    pub fn leave_journal(&self, seat: &mut TwinSeat<V, J>, journal: J)
        requires { MayLeaveJournal J.stands J.firm J.mark self.now seat.old journal }
        ensures twin { IsSeatOf self.now seat.new }
        ensures number { number_of seat.new ≡ number_of seat.old }
        ensures seen { seen_of seat.new ≡ seen_of seat.old }
        ensures free { IsFree seat.new }
        ensures firm { J.firm journal ≤ known_of seat.new }
        ensures known { known_of seat.old ≤ known_of seat.new }
    {
        let words = &self.table.shared;
        let firm = journal.firm();
        words
            .exchange(&mut seat.seat, JOURNAL, Part::of_journal(journal))
            .into_nothing();
        words.fetch_max::<JournalRaise>(&mut seat.seat, FIRM, firm);
        words.fetch_add::<JournalPass>(&mut seat.seat, JOURNAL_SERVING, 1);
        wake(words, &mut seat.seat, JOURNAL_LINE);
    }

    /// Ends the twin, given all its seats, in any order. The state stands for a list that begins with what each seat has seen, with no item of
    /// that seat's making after that, and the journal for a beginning of that list. It has no fewer firm items than the state counts on, and
    /// the same mark.
    pub fn close(self, seats: Vec<TwinSeat<V, J>>) -> (V, J)
        requires { AreAll self seats.items }
        ensures { Gathers V.stands V.firm V.mark J.stands J.firm J.mark V.maker result.0 result.1 seats.items }
    {
        let Twin { table } = self;
        let mut seats = seats;
        let mut keeper = seats.pop().unwrap().into_inner();
        while let Some(seat) = seats.pop() {
            table
                .shared
                .join_seat::<Seating>(&mut keeper, seat.into_inner());
        }
        let mut closed = table.close_with(keeper);
        let value = closed.take(STATE).into_state();
        let journal = closed.take(JOURNAL).into_journal();
        closed.free();
        (value, journal)
    }
}
