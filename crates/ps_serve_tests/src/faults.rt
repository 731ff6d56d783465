// Openings that fail.
use crate::lines::CREATE;
use crate::worlds::{
    FIRST, SECOND, SERVE, code_of, put_side, reading, report, stored, world_over, written,
};
use ps_disk::MemDisk;
use std::alloc::Global;
use std::process::Abort;
use std::random::RandomSource;
use std::sync::Wait;
use std::test::Fail;
use std::thread::Threads;

// A run in which the world fails at these calls: the store, the source, the sink and the clock of each stream are opened in turn, and then it is
// reported.
fn not_opened(
    rt: &(impl Abort + RandomSource + Wait + Threads + Sync),
    alloc: Global,
    failing: &[u64],
    reported: &str,
) -> Result<(), Fail> {
    let mut world = world_over(alloc, MemDisk::new(alloc, b"", &[])?, failing)?;
    put_side(alloc, &mut world, reading(FIRST, CREATE))?;
    put_side(alloc, &mut world, SECOND)?;
    let code = code_of(rt, alloc, SERVE, &mut world)?;
    assert_eq!(rt;
        report(alloc, &world, code)?.as_str(),
        reported,
        "{failing:?}"
    );
    assert_eq!(rt; written(alloc, &world, "o1")?, "");
    assert_eq!(rt; stored(alloc, &world)?.bytes().len(), 0);
    Ok(())
}

#[test]
fn an_opening_that_fails_leaves_the_store(rt: HostRuntime) -> Result<(), Fail> {
    let alloc = rt.alloc();
    for call in 1..=7 {
        not_opened(&rt, alloc, &[call], "open fault\n9")?;
    }
    not_opened(&rt, alloc, &[2, 3], "9")?;
    let mut world = world_over(alloc, MemDisk::new(alloc, b"", &[])?, &[])?;
    put_side(alloc, &mut world, SECOND)?;
    let code = code_of(&rt, alloc, SERVE, &mut world)?;
    assert_eq!(rt; report(alloc, &world, code)?.as_str(), "open fault\n9");
    Ok(())
}
