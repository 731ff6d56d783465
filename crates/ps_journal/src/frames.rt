// What stands at a gate.
ghost use Rattle.std.specs.Prelude.{◌≡◌, option_map};
ghost use Rattle.ps_journal.specs.Judged.{whole_at, stride, stride_at};

use ps_record::u32_at;

// A body that isn't empty, and the bytes behind it, one at least.
fn frame_of(rest: &[u8]) -> Option<(&[u8], &[u8])>
    ensures { option_map (λ x. (x.0.now, x.1.now)) result ≡ whole_at rest.now }
{
    match u32_at(rest) {
        None => None,
        Some((len, tail)) => {
            let len = len as usize;
            if len == 0 || tail.len() <= len {
                return None;
            }
            Some(tail.split_at(len))
        }
    }
}

/// What stands at a gate: a closed one, a whole frame and the bytes after it, or neither.
pub(crate) enum Step<'a> {
    Shut,
    Bad,
    Frame(&'a [u8], &'a [u8]),
}

pub(crate) fn step_of(rest: &[u8]) -> Step<'_>
    ensures { stride result ≡ stride_at rest.now }
{
    match rest {
        [] => Step::Bad,
        [1, tail @ ..] => match frame_of(tail) {
            None => Step::Bad,
            Some((body, after)) => Step::Frame(body, after),
        },
        [_, ..] => Step::Shut,
    }
}
