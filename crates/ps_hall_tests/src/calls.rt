// The calls of the passes of the first host.
ghost use Rattle.std.specs.Prelude.{OnOk, IfOk};
ghost use Rattle.ps_hall_state.specs.Shape.{IsArrival};
ghost use Rattle.ps_hall_tests.specs.Passes.{IsFree, Reads, Writes};

use ps_disk::Disk;
use ps_hall::{ArriveRefusal, EndCause, Hall, Next, Opening, Outcome, Pass, Receipt};
use ps_journal::EntriesRefusal;
use ps_types::{Arrival, Bytes, Memory};
use std::alloc::Global;
use std::process::Abort;
use std::sync::Wait;
use std::test::Fail;
use std::thread::Threads;

fn arrival(alloc: Global, line: &str) -> Result<Arrival, Fail>
    ensures { IfOk result (λ a. IsArrival a) }
{
    let bytes = line.as_bytes().to_vec(alloc)?;
    Ok(Arrival::Line {
        bytes: Bytes::from_vec(bytes),
        moment: None,
    })
}

/// A line is answered, and durable. If memory is refused, the failure is that.
fn arrives<B: Opening, D: Disk>(
    rt: &(impl Abort + Wait + Threads + Sync),
    alloc: Global,
    hall: &Hall<B, D>,
    pass: &mut Pass<B, D>,
    line: &str,
) -> Result<Result<Receipt, ArriveRefusal>, Fail>
    requires { Reads B.origin hall.now.twin pass.old }
    ensures { Reads B.origin hall.now.twin pass.new }
{
    let arrival = arrival(alloc, line)?;
    match hall.arrive(rt, pass, &arrival) {
        Err(ArriveRefusal::Memory) => Err(Fail::from(Memory)),
        came => Ok(came),
    }
}

/// The line makes an entry at that place.
pub fn commits<B: Opening, D: Disk>(
    rt: &(impl Abort + Wait + Threads + Sync),
    alloc: Global,
    hall: &Hall<B, D>,
    pass: &mut Pass<B, D>,
    line: &str,
    place: u64,
) -> Result<(), Fail>
    requires { Reads B.origin hall.now.twin pass.old }
    ensures { Reads B.origin hall.now.twin pass.new }
{
    let came = arrives(rt, alloc, hall, pass, line)?;
    let want = Receipt {
        place,
        outcome: Outcome::Committed,
    };
    assert_eq!(rt; came, Ok(want), "{line}");
    Ok(())
}

/// The line's entry finds no room, and isn't made.
pub fn finds_no_room<B: Opening, D: Disk>(
    rt: &(impl Abort + Wait + Threads + Sync),
    alloc: Global,
    hall: &Hall<B, D>,
    pass: &mut Pass<B, D>,
    line: &str,
    place: u64,
) -> Result<(), Fail>
    requires { Reads B.origin hall.now.twin pass.old }
    ensures { Reads B.origin hall.now.twin pass.new }
{
    let came = arrives(rt, alloc, hall, pass, line)?;
    let want = Receipt {
        place,
        outcome: Outcome::Full,
    };
    assert_eq!(rt; came, Ok(want), "{line}");
    Ok(())
}

/// The line isn't taken.
pub fn refuses<B: Opening, D: Disk>(
    rt: &(impl Abort + Wait + Threads + Sync),
    alloc: Global,
    hall: &Hall<B, D>,
    pass: &mut Pass<B, D>,
    line: &str,
    why: ArriveRefusal,
) -> Result<(), Fail>
    requires { Reads B.origin hall.now.twin pass.old }
    ensures { Reads B.origin hall.now.twin pass.new }
{
    let came = arrives(rt, alloc, hall, pass, line)?;
    assert_eq!(rt; came, Err(why), "{line}");
    Ok(())
}

/// So many entries are read again, after which the pass has seen so many steps.
pub fn recalls<B: Opening, D: Disk>(
    rt: &(impl Abort + Wait),
    alloc: Global,
    hall: &Hall<B, D>,
    pass: &mut Pass<B, D>,
    count: usize,
    steps: u64,
) -> Result<(), Fail>
    requires { Reads B.origin hall.now.twin pass.old }
    ensures { Reads B.origin hall.now.twin pass.new }
{
    match hall.history(rt, alloc, pass) {
        Ok(entries) => {
            assert_eq!(rt; (entries.len(), hall.seen(pass)), (count, steps));
            Ok(())
        }
        Err(EntriesRefusal::Memory) => Err(Fail::from(Memory)),
        Err(EntriesRefusal::Store) => Err(Fail::new("no list")),
    }
}

/// The host's reader ends, and its Gone is durable.
pub fn goes<B: Opening, D: Disk>(
    rt: &(impl Abort + Wait + Threads + Sync),
    hall: &Hall<B, D>,
    pass: &mut Pass<B, D>,
)
    requires { Reads B.origin hall.now.twin pass.old }
    ensures { Reads B.origin hall.now.twin pass.new }
{
    let gone = hall.gone(rt, pass);
    assert_eq!(rt; gone, Ok(()));
}

/// The host's writer ends.
pub fn ends<B: Opening, D: Disk>(rt: &impl Wait, hall: &Hall<B, D>, pass: &mut Pass<B, D>)
    requires { Writes B.origin hall.now.twin pass.old }
    ensures { Writes B.origin hall.now.twin pass.new }
{
    hall.writer_ended(rt, pass, EndCause::Finished);
}

/// The next line is this reply.
pub fn replies<B: Opening, D: Disk>(
    rt: &(impl Abort + Wait),
    hall: &Hall<B, D>,
    pass: &mut Pass<B, D>,
    text: &str,
) -> Result<(), Fail>
    requires { IsFree B.origin hall.now.twin pass.old }
    ensures writes { Writes B.origin hall.now.twin pass.new }
    ensures free { OnOk result (IsFree B.origin hall.now.twin pass.new) }
{
    match hall.next(rt, pass)? {
        Next::Reply(reply) => {
            assert!(rt; reply.as_slice() == text.as_bytes(), "{text}");
            Ok(())
        }
        Next::Notice(_) | Next::NotYet | Next::Over => Err(Fail::new("no reply")),
    }
}

/// The next line is this notice, which is handed.
pub fn tells<B: Opening, D: Disk>(
    rt: &(impl Abort + Wait + Threads + Sync),
    hall: &Hall<B, D>,
    pass: &mut Pass<B, D>,
    text: &str,
) -> Result<(), Fail>
    requires { IsFree B.origin hall.now.twin pass.old }
    ensures writes { Writes B.origin hall.now.twin pass.new }
    ensures free { OnOk result (IsFree B.origin hall.now.twin pass.new) }
{
    match hall.next(rt, pass)? {
        Next::Notice(line) => {
            assert!(rt; line.as_slice() == text.as_bytes(), "{text}");
            let held = hall.in_hand(pass);
            if held != 1 {
                return Err(Fail::new("not in hand"));
            }
            match hall.handed(rt, pass) {
                Ok(()) => {
                    let left = hall.in_hand(pass);
                    if left == 0 {
                        return Ok(());
                    }
                    Err(Fail::new("still in hand"))
                }
                Err(_) => Err(Fail::new("not handed")),
            }
        }
        Next::Reply(_) | Next::NotYet | Next::Over => Err(Fail::new("no notice")),
    }
}

/// There is nothing now.
pub fn waits<B: Opening, D: Disk>(
    rt: &impl Wait,
    hall: &Hall<B, D>,
    pass: &mut Pass<B, D>,
) -> Result<(), Fail>
    requires { IsFree B.origin hall.now.twin pass.old }
    ensures writes { Writes B.origin hall.now.twin pass.new }
    ensures free { OnOk result (IsFree B.origin hall.now.twin pass.new) }
{
    match hall.next(rt, pass)? {
        Next::NotYet => Ok(()),
        Next::Reply(_) | Next::Notice(_) | Next::Over => Err(Fail::new("not nothing")),
    }
}

/// There is nothing, and no reader runs.
pub fn is_over<B: Opening, D: Disk>(
    rt: &impl Wait,
    hall: &Hall<B, D>,
    pass: &mut Pass<B, D>,
) -> Result<(), Fail>
    requires { IsFree B.origin hall.now.twin pass.old }
    ensures { Writes B.origin hall.now.twin pass.new }
{
    match hall.next(rt, pass)? {
        Next::Over => Ok(()),
        Next::Reply(_) | Next::Notice(_) | Next::NotYet => Err(Fail::new("not over")),
    }
}
