use crate::write_all;
use std::test::Fail;

#[test]
fn each_threads_entries_stay_in_that_threads_order_each_once(rt: HostRuntime) -> Result<(), Fail> {
    const SEATS: u32 = 4;
    const TIMES: u64 = 3000;
    let (diary, journal) = write_all(&rt, rt.alloc(), SEATS, TIMES)?;
    let mut next = [0; SEATS as usize];
    for entry in &diary.entries {
        let by = entry.by as usize;
        assert!(rt; by < next.len());
        assert_eq!(rt; entry.at, next[by]);
        next[by] = entry.at.wrapping_add(1);
    }
    assert_eq!(rt; next, [TIMES; SEATS as usize]);
    assert_eq!(rt; journal.count, u64::from(SEATS) * TIMES);
    assert_eq!(rt; diary.flushed, journal.count);
    assert_eq!(rt; diary.begun, journal.begun);
    Ok(())
}

#[test]
fn one_two_and_sixteen_seats_flush_what_they_wrote(rt: HostRuntime) -> Result<(), Fail> {
    for seats in [1, 2, 16] {
        let (diary, journal) = write_all(&rt, rt.alloc(), seats, 80)?;
        assert_eq!(rt; diary.entries.len() as u64, u64::from(seats) * 80);
        assert_eq!(rt; journal.count, u64::from(seats) * 80);
    }
    Ok(())
}
