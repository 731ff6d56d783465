// An entry with its fields as bytes, as a store has it.
ghost use Rattle.std.specs.Prelude.{◌≡◌, ◌+◌, length, option_map};
ghost use Rattle.std.specs.Int.{w16, w32, w64};
ghost use Rattle.ps_record.specs.Raw.{view, number_at, text_of, text_at, change_at, moment_at, raw_at};

// The fields of an entry, whose texts aren't judged yet.
#[derive(Clone, Copy, Drop)]
pub(crate) enum Raw<'a> {
    Boot(&'a [u8]),
    Change(&'a [u8], u64, Option<u64>, &'a [u8]),
    Handed(&'a [u8]),
    Gone(&'a [u8]),
    Base(&'a [u8]),
}

fn u16_at(bytes: &[u8]) -> Option<(u16, &[u8])>
    ensures { option_map (λ x. (x.0, x.1.now)) result ≡ number_at w16 bytes.now }
{
    if bytes.len() < 2 {
        return None;
    }
    let (front, rest) = bytes.split_at(2);
    let number = u16::from_be_bytes([front[0], front[1]]);
    Some((number, rest))
}

/// A number of four bytes, and the bytes after it.
pub fn u32_at(bytes: &[u8]) -> Option<(u32, &[u8])>
    ensures { option_map (λ x. (x.0, x.1.now)) result ≡ number_at w32 bytes.now }
{
    if bytes.len() < 4 {
        return None;
    }
    let (front, rest) = bytes.split_at(4);
    let number = u32::from_be_bytes([front[0], front[1], front[2], front[3]]);
    Some((number, rest))
}

fn u64_at(bytes: &[u8]) -> Option<(u64, &[u8])>
    ensures { option_map (λ x. (x.0, x.1.now)) result ≡ number_at w64 bytes.now }
{
    if bytes.len() < 8 {
        return None;
    }
    let (front, rest) = bytes.split_at(8);
    let number = u64::from_be_bytes([
        front[0], front[1], front[2], front[3], front[4], front[5], front[6], front[7],
    ]);
    Some((number, rest))
}

#[tactic(auto, unfolding(crate::specs::Raw::text_of))]
fn text(len: usize, bytes: &[u8]) -> Option<(&[u8], &[u8])>
    ensures { option_map (λ x. (x.0.now, x.1.now)) result ≡ text_of len bytes.now }
{
    if bytes.len() < len {
        return None;
    }
    Some(bytes.split_at(len))
}

#[tactic(auto, unfolding(crate::specs::Raw::text_at))]
fn short(bytes: &[u8]) -> Option<(&[u8], &[u8])>
    ensures { option_map (λ x. (x.0.now, x.1.now)) result ≡ text_at w16 bytes.now }
{
    let (len, rest) = u16_at(bytes)?;
    text(len as usize, rest)
}

#[tactic(auto, unfolding(crate::specs::Raw::text_at))]
fn long(bytes: &[u8]) -> Option<(&[u8], &[u8])>
    ensures { option_map (λ x. (x.0.now, x.1.now)) result ≡ text_at w32 bytes.now }
{
    let (len, rest) = u32_at(bytes)?;
    text(len as usize, rest)
}

#[tactic(auto, unfolding(crate::specs::Raw::change_at))]
fn change(bytes: &[u8]) -> Option<(Raw<'_>, &[u8])>
    ensures { option_map (λ x. (view x.0, x.1.now)) result ≡ change_at bytes.now }
{
    let (host, rest) = short(bytes)?;
    let (line, rest) = u64_at(rest)?;
    let (tree, rest) = long(rest)?;
    Some((Raw::Change(host, line, None, tree), rest))
}

#[tactic(auto, unfolding(crate::specs::Raw::moment_at))]
fn change_with_moment(bytes: &[u8]) -> Option<(Raw<'_>, &[u8])>
    ensures { option_map (λ x. (view x.0, x.1.now)) result ≡ moment_at bytes.now }
{
    let (host, rest) = short(bytes)?;
    let (line, rest) = u64_at(rest)?;
    let (moment, rest) = u64_at(rest)?;
    let (tree, rest) = long(rest)?;
    Some((Raw::Change(host, line, Some(moment), tree), rest))
}

/// The fields at the front of the bytes, and what comes behind them.
#[tactic(auto, unfolding(crate::specs::Raw::raw_at))]
pub(crate) fn fields_at(bytes: &[u8]) -> Option<(Raw<'_>, &[u8])>
    ensures { option_map (λ x. (view x.0, x.1.now)) result ≡ raw_at bytes.now }
{
    match bytes {
        [0, rest @ ..] => {
            let (service, rest) = short(rest)?;
            Some((Raw::Boot(service), rest))
        }
        [1, rest @ ..] => change(rest),
        [2, rest @ ..] => {
            let (to, rest) = short(rest)?;
            Some((Raw::Handed(to), rest))
        }
        [3, rest @ ..] => {
            let (host, rest) = short(rest)?;
            Some((Raw::Gone(host), rest))
        }
        [4, rest @ ..] => change_with_moment(rest),
        [5, rest @ ..] => {
            let (row, rest) = long(rest)?;
            Some((Raw::Base(row), rest))
        }
        _ => None,
    }
}
