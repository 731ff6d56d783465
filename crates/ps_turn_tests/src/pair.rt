// The two seats of a turn, one by one.
ghost use Rattle.std.specs.Prelude.{◌≡◌, ◌≤◌, [], vec_len, vec_capacity};
ghost use Rattle.ps_turn.specs.Seats.{number_of, seats_of, IsSeatOf, IsFree, IsNew, AreNew};

use crate::diary::Diary;
use ps_turn::{Seat, Turn};

/// Both seats, and the list that they leave empty.
pub fn take_pair(
    turn: &Turn<Diary>,
    seats: Vec<Seat<Diary>>,
) -> (Seat<Diary>, Seat<Diary>, Vec<Seat<Diary>>)
    requires { AreNew turn.now seats.items × (vec_len seats ≡ 2) }
    ensures first { IsNew turn.now 0 result.0 }
    ensures second { IsNew turn.now 1 result.1 }
    ensures room { (result.2.items ≡ []) × (2 ≤ vec_capacity result.2) }
{
    let mut seats = seats;
    let second = seats.pop().unwrap();
    let first = seats.pop().unwrap();
    (first, second, seats)
}

/// Puts them back, and closes the turn.
pub fn close_pair(
    turn: Turn<Diary>,
    first: Seat<Diary>,
    second: Seat<Diary>,
    room: Vec<Seat<Diary>>,
) -> Diary
    requires seats { seats_of turn ≡ 2 }
    requires first { IsSeatOf turn first × IsFree first × (number_of first ≡ 0) }
    requires second { IsSeatOf turn second × IsFree second × (number_of second ≡ 1) }
    requires room { (room.items ≡ []) × (2 ≤ vec_capacity room) }
{
    let mut seats = room;
    seats.push_reserved(first);
    seats.push_reserved(second);
    turn.close(seats)
}
