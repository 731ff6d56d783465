// Whether notices were pushed in the order of their entries.
ghost use Rattle.std.specs.Prelude.{◌≡◌};
ghost use Rattle.ps_outbox.specs.Kept.{stamped};

/// The last place, and whether all were pushed in order, with one more.
pub(crate) fn ordered(last: u64, in_order: bool, place: u64) -> (u64, bool)
    ensures { result ≡ stamped last in_order place }
{
    if place < last {
        (last, false)
    } else {
        (place, in_order)
    }
}
