use crate::{Lump, count, keep, list, newest, put, take};
use ps_rows::Rows;
use std::alloc::Global;
use std::process::Abort;
use std::test::Fail;

fn fill(rows: &mut Rows<Lump>, keys: u64) -> Result<(), Fail> {
    for key in 0..keys {
        rows.reserve(1)?;
        put(
            rows,
            Lump {
                group: key % 3,
                key,
            },
        );
    }
    Ok(())
}

fn keys_are(
    rt: &impl Abort,
    alloc: Global,
    rows: &Rows<Lump>,
    group: u64,
    want: &[u64],
) -> Result<(), Fail> {
    let found = list(alloc, rows, group)?;
    assert_eq!(rt; found.len(), want.len());
    for (row, key) in found.iter().zip(want) {
        assert_eq!(rt; row.key, *key);
    }
    Ok(())
}

#[test]
fn rows_of_one_digest_are_told_apart(rt: HostRuntime) -> Result<(), Fail> {
    let alloc = rt.alloc();
    let mut rows = Rows::new(alloc);
    fill(&mut rows, 12)?;
    fill(&mut rows, 12)?;
    assert_eq!(rt; rows.len(), 12);
    assert_eq!(rt; count(&rows, 1), 4);
    keys_are(&rt, alloc, &rows, 1, &[1, 4, 7, 10])?;
    take(&mut rows, &Lump { group: 1, key: 4 });
    keep(&mut rows, 2, 2);
    keys_are(&rt, alloc, &rows, 0, &[0, 3, 6, 9])?;
    keys_are(&rt, alloc, &rows, 1, &[1, 7, 10])?;
    keys_are(&rt, alloc, &rows, 2, &[8, 11])?;
    assert_eq!(rt; count(&rows, 2), 2);
    let last = newest(alloc, &rows, 1, 2)?;
    assert!(rt; last.len() == 2 && last[0].key == 7 && last[1].key == 10);
    Ok(())
}

// A hundred rows stay, the newest ones, while a hundred thousand come and go.
#[test]
fn places_stay_few_while_rows_come_and_go(rt: HostRuntime) -> Result<(), Fail> {
    let mut rows = Rows::new(rt.alloc());
    for key in 0..100_000 {
        rows.reserve(1)?;
        rows.add(Lump { group: 0, key });
        keep(&mut rows, 0, 100);
    }
    assert_eq!(rt; rows.len(), 100);
    assert!(rt; rows.places().len() <= 256);
    Ok(())
}
