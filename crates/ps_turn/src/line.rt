// How a seat waits in a line of tickets. A line has three words of a table: the next ticket, the ticket that is served, and the bell.
//
// Where nobody has a ticket that isn't done with, a seat draws the next one and is served at once. Else it looks for a while, and then sleeps. Who
// gives back wakes one sleeper, and doesn't wait for it: who comes first is served first, so that the value is never out with a thread that has
// still to wake. A seat that was woken in vain a few times draws a ticket all the same, and nobody is served before it who has none yet.
//
// All sleep on the bell. Its last two bits have 1 where a seat sleeps that has no ticket, and 2 where one sleeps that has; the others count how often it rang,
// so it only grows. A seat sets its bit, looks once more, and sleeps only while the bell is as it left it. Who gives back looks at the bell after that, and
// makes it greater before it wakes anyone: so who has set its bit by then and doesn't sleep yet won't, even where others have set the same bits since. A seat
// that was woken sets its bit again before it looks, since others may sleep.
ghost use Rattle.std.specs.Prelude.{◌≡◌, ◌<◌, IfSome, IfNone};
ghost use mathlib.Core.Option.{none};
ghost use Rattle.atomic_table.specs.Table.{step};
ghost use Rattle.ps_turn.specs.Waits.{MayRing, MayDraw, MayLook};

use crate::plays::{Ring, Try};
use atomic_table::{Play, Seat, Shared, TableRule};
use std::hint::spin_loop;
use std::sync::Wait;
use std::thread::yield_now;

// How often a seat looks before it sleeps.
const LOOKS: u32 = 100;

// How often a seat with a ticket gives way before it sleeps.
const YIELDS: u32 = 4;

// How often a seat without a ticket is woken in vain.
const ROUNDS: u32 = 8;

/// Where the words of a line lie in its table.
#[derive(Clone, Copy)]
pub struct Words {
    /// The next ticket to be drawn.
    pub ticket: usize,
    /// The ticket that is served.
    pub serving: usize,
    /// Who sleeps.
    pub bell: usize,
}

/// Draws a ticket, and waits until nobody else has one, but not for ever.
pub fn draw<D: Play<S, V>, S, V, K, P: TableRule<S, V, K>, R: Wait>(
    rt: &R,
    table: &Shared<S, V, K, P>,
    seat: &mut Seat<S, V>,
    line: Words,
) -> u64
    requires table { seat.old.table_id ≡ table.now.table_id }
    requires words { (line.ticket < table.now.table_id.words) × (line.serving < table.now.table_id.words)
        × (line.bell < table.now.table_id.words) }
    requires draws { MayDraw (P.holds table.now.key) table.now.table_id.slots seat.old.id seat.old.me D.then
        line.ticket }
    requires rings { MayRing (P.holds table.now.key) table.now.table_id.slots seat.old.id seat.old.me line.bell }
    ensures table { (seat.new.table_id ≡ seat.old.table_id) × (seat.new.id ≡ seat.old.id) }
    ensures drew { D.then (step table.now.table_id.slots line.ticket 1 0 none) seat.old.me result seat.new.me }
{
    for _ in 0..ROUNDS {
        if let Some(ticket) = try_draw::<D, S, V, K, P>(table, seat, line) {
            return ticket;
        }
        doze(rt, table, seat, line);
    }
    table.fetch_add::<D>(seat, line.ticket, 1)
}

// Draws a ticket where nobody has one that isn't done with.
fn try_draw<D: Play<S, V>, S, V, K, P: TableRule<S, V, K>>(
    table: &Shared<S, V, K, P>,
    seat: &mut Seat<S, V>,
    line: Words,
) -> Option<u64>
    requires table { seat.old.table_id ≡ table.now.table_id }
    requires words { (line.ticket < table.now.table_id.words) × (line.serving < table.now.table_id.words) }
    requires draws { MayDraw (P.holds table.now.key) table.now.table_id.slots seat.old.id seat.old.me D.then
        line.ticket }
    ensures table { (seat.new.table_id ≡ seat.old.table_id) × (seat.new.id ≡ seat.old.id) }
    ensures drew { IfSome result
        (λ n. D.then (step table.now.table_id.slots line.ticket 1 0 none) seat.old.me n seat.new.me) }
    ensures not { IfNone result (seat.new.me ≡ seat.old.me) }
{
    let serving = table.peek(line.serving);
    if table.peek(line.ticket) != serving {
        return None;
    }
    let next = serving.wrapping_add(1);
    if table.compare_exchange::<Try<D>>(seat, line.ticket, serving, next) == serving {
        Some(serving)
    } else {
        None
    }
}

// Looks for a while whether the value was given back, and then sleeps. It may also return for no reason.
fn doze<S, V, K, P: TableRule<S, V, K>, R: Wait>(
    rt: &R,
    table: &Shared<S, V, K, P>,
    seat: &mut Seat<S, V>,
    line: Words,
)
    requires table { seat.old.table_id ≡ table.now.table_id }
    requires words { (line.ticket < table.now.table_id.words) × (line.serving < table.now.table_id.words)
        × (line.bell < table.now.table_id.words) }
    requires rings { MayRing (P.holds table.now.key) table.now.table_id.slots seat.old.id seat.old.me line.bell }
    ensures { (seat.new.table_id ≡ seat.old.table_id) × (seat.new.id ≡ seat.old.id) × (seat.new.me ≡ seat.old.me) }
{
    for _ in 0..LOOKS {
        if is_back(table, line) {
            return;
        }
        spin_loop();
    }
    let asleep = note(table, seat, line, 1);
    if !is_back(table, line) {
        table.park(rt, line.bell, ((asleep | 1) % (1 << 32)) as u32);
        note(table, seat, line, 1);
    }
}

// Says at the bell who sleeps, and answers what it said before.
fn note<S, V, K, P: TableRule<S, V, K>>(
    table: &Shared<S, V, K, P>,
    seat: &mut Seat<S, V>,
    line: Words,
    who: u64,
) -> u64
    requires table { seat.old.table_id ≡ table.now.table_id }
    requires words { line.bell < table.now.table_id.words }
    requires rings { MayRing (P.holds table.now.key) table.now.table_id.slots seat.old.id seat.old.me line.bell }
    ensures { (seat.new.table_id ≡ seat.old.table_id) × (seat.new.id ≡ seat.old.id) × (seat.new.me ≡ seat.old.me) }
{
    table.fetch_or::<Ring>(seat, line.bell, who)
}

// Whether nobody has a ticket that isn't done with.
fn is_back<S, V, K, P: TableRule<S, V, K>>(table: &Shared<S, V, K, P>, line: Words) -> bool
    requires { (line.ticket < table.now.table_id.words) × (line.serving < table.now.table_id.words) }
{
    table.peek(line.serving) == table.peek(line.ticket)
}

/// Waits until the ticket is served.
pub fn wait_for<L: Play<S, V>, S, V, K, P: TableRule<S, V, K>, R: Wait>(
    rt: &R,
    table: &Shared<S, V, K, P>,
    seat: &mut Seat<S, V>,
    line: Words,
    ticket: u64,
)
    requires table { seat.old.table_id ≡ table.now.table_id }
    requires words { (line.serving < table.now.table_id.words) × (line.bell < table.now.table_id.words) }
    requires looks { MayLook (P.holds table.now.key) table.now.table_id.slots seat.old.id seat.old.me L.then
        line.serving ticket }
    requires rings { MayRing (P.holds table.now.key) table.now.table_id.slots seat.old.id seat.old.me line.bell }
    ensures table { (seat.new.table_id ≡ seat.old.table_id) × (seat.new.id ≡ seat.old.id) }
    ensures looked { L.then (step table.now.table_id.slots line.serving 0 0 none) seat.old.me ticket seat.new.me }
{
    for _ in rt.forever() {
        let serving = table.load::<L>(seat, line.serving);
        if serving == ticket {
            return;
        }
        give_way(rt, table, seat, line, serving);
    }
    unreachable!()
}

// While that ticket is served, lets other threads run, and then sleeps. It may also return earlier.
fn give_way<S, V, K, P: TableRule<S, V, K>, R: Wait>(
    rt: &R,
    table: &Shared<S, V, K, P>,
    seat: &mut Seat<S, V>,
    line: Words,
    serving: u64,
)
    requires table { seat.old.table_id ≡ table.now.table_id }
    requires words { (line.serving < table.now.table_id.words) × (line.bell < table.now.table_id.words) }
    requires rings { MayRing (P.holds table.now.key) table.now.table_id.slots seat.old.id seat.old.me line.bell }
    ensures { (seat.new.table_id ≡ seat.old.table_id) × (seat.new.id ≡ seat.old.id) × (seat.new.me ≡ seat.old.me) }
{
    for _ in 0..YIELDS {
        yield_now();
        if table.peek(line.serving) != serving {
            return;
        }
    }
    let asleep = note(table, seat, line, 2);
    if table.peek(line.serving) == serving {
        table.park(rt, line.bell, ((asleep | 2) % (1 << 32)) as u32);
    }
}

/// Wakes one of the seats that sleep, or all where one of them has a ticket.
pub fn wake<S, V, K, P: TableRule<S, V, K>>(
    table: &Shared<S, V, K, P>,
    seat: &mut Seat<S, V>,
    line: Words,
)
    requires table { seat.old.table_id ≡ table.now.table_id }
    requires words { (line.serving < table.now.table_id.words) × (line.bell < table.now.table_id.words) }
    requires rings { MayRing (P.holds table.now.key) table.now.table_id.slots seat.old.id seat.old.me line.bell }
    ensures { (seat.new.table_id ≡ seat.old.table_id) × (seat.new.id ≡ seat.old.id) × (seat.new.me ≡ seat.old.me) }
{
    let told = table.peek(line.bell) % 4;
    if told == 0 {
        return;
    }
    // What was told goes, unless it has changed since, and the count grows.
    let asleep = table.fetch_add::<Ring>(seat, line.bell, 4 - told);
    if asleep / 2 % 2 == 1 {
        table.wake_all(line.bell);
    } else {
        table.wake_one(line.bell);
    }
}
