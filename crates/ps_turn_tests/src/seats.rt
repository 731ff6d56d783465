// What a seat has seen, and whose items stand where, after several threads.
use crate::diary::{Diary, Entry, add, write_all};
use crate::pair::{close_pair, take_pair};
use crate::visits::visit_all;
use ps_turn::Turn;
use std::test::Fail;

#[test]
fn a_seat_has_seen_what_was_there_when_it_last_entered(rt: HostRuntime) -> Result<(), Fail> {
    let diary = Diary {
        entries: Vec::new(rt.alloc()),
    };
    let Ok((turn, seats)) = Turn::new(rt.alloc(), diary, 2) else {
        panic!(rt; "no memory")
    };
    let (mut first, mut second, room) = take_pair(&turn, seats);
    add(&rt, &turn, &mut first, Entry { by: 0, at: 0 });
    assert_eq!(rt; turn.seen(&first), 1);
    assert_eq!(rt; turn.seen(&second), 0);
    let diary = turn.enter(&rt, &mut second);
    assert_eq!(rt; turn.seen(&second), 1);
    turn.leave(&mut second, diary);
    let diary = close_pair(turn, first, second, room);
    assert_eq!(rt; diary.entries.len(), 1);
    Ok(())
}

#[test]
fn each_threads_items_stay_in_that_threads_order_each_once(rt: HostRuntime) -> Result<(), Fail> {
    const SEATS: u32 = 4;
    const TIMES: u64 = 3000;
    let diary = write_all(&rt, rt.alloc(), SEATS, TIMES)?;
    let mut next = [0; SEATS as usize];
    for entry in &diary.entries {
        let by = entry.by as usize;
        assert!(rt; by < next.len());
        assert_eq!(rt; entry.at, next[by]);
        next[by] = entry.at.wrapping_add(1);
    }
    assert_eq!(rt; next, [TIMES; SEATS as usize]);
    Ok(())
}

#[test]
fn each_worker_adds_its_item(rt: HostRuntime) -> Result<(), Fail> {
    for workers in [1, 2, 16] {
        let visits = visit_all(&rt, rt.alloc(), workers)?;
        assert_eq!(rt; visits.count, u64::from(workers));
    }
    Ok(())
}
