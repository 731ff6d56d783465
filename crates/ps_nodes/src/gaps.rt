// The empty places, in order.
ghost use Rattle.std.specs.Prelude.{◌≡◌, ◌+◌, ◌-◌, ◌<◌, ◌≤◌, true, false, cond, OnOk, vec_len, vec_capacity};
ghost use Rattle.ps_nodes.specs.Gaps.{IsCut, IsPut, IsRising};

use std::alloc::AllocError;

fn slack(ranked: bool, at: usize) -> usize
    ensures slack { result ≡ cond ranked at 0 }
    ensures few { result ≤ at }
{
    if ranked { at } else { 0 }
}

fn is_before(gap: usize, slack: usize, bound: usize) -> bool
    requires within { slack ≤ gap }
    ensures yes { result ≡ true → gap < bound + slack }
    ensures no { result ≡ false → bound + slack ≤ gap }
{
    gap - slack < bound
}

fn middle(low: usize, high: usize) -> usize
    requires some { low < high }
    ensures low { low ≤ result }
    ensures high { result < high }
{
    low + (high - low) / 2
}

/// How many gaps are before a bound, which rises by one with each gap where that is asked for. It halves what is left until it is found.
pub fn cut_of(gaps: &[usize], bound: usize, ranked: bool) -> usize
    requires rising { IsRising gaps.now }
    ensures cut { IsCut ranked gaps.now bound result }
{
    let mut low = 0;
    let mut high = gaps.len();
    while low < high {
        let mid = middle(low, high);
        if is_before(gaps[mid], slack(ranked, mid), bound) {
            low = mid + 1;
            continue;
        }
        high = mid;
    }
    low
}

/// How many places before a place are not empty.
pub fn rank_of(gaps: &[usize], place: usize) -> usize
    requires rising { IsRising gaps.now }
    ensures within { result ≤ place }
    ensures cut { IsCut false gaps.now place (place - result) }
{
    let cut = cut_of(gaps, place, false);
    place - cut
}

/// Lists a place as empty, where there is room.
pub fn put(gaps: &mut Vec<usize>, place: usize)
    requires rising { IsRising gaps.old.items }
    requires room { vec_len gaps.old < vec_capacity gaps.old }
    ensures put { IsPut place gaps.old.items gaps.new.items }
    ensures room { vec_capacity gaps.old ≤ vec_capacity gaps.new }
{
    let at = cut_of(gaps, place, false);
    let _ = gaps.insert(at, place);
}

/// Makes room, so that each of so many places could be empty.
pub fn reserve(gaps: &mut Vec<usize>, places: usize) -> Result<(), AllocError>
    ensures items { gaps.new.items ≡ gaps.old.items }
    ensures room { OnOk result (places ≤ vec_capacity gaps.new) }
    ensures kept { vec_capacity gaps.old ≤ vec_capacity gaps.new }
{
    gaps.try_reserve(places.saturating_sub(gaps.len()))?;
    Ok(())
}
