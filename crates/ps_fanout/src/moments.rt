// The text of a moment (XEP-0082).
ghost use Rattle.std.specs.Prelude.{◌≡◌, ◌*◌, ◌++◌, ◌<◌, IfOk, ℕ, codes, pos};
ghost use Rattle.jiff.specs.Names.{iso_datetime_text};
ghost use Rattle.jiff_core.specs.DateTime.{civil_nanos};
ghost use Rattle.jiff_core.specs.declared.civil.datetime.DateTime.{DateTime};
ghost use Rattle.ps_model.specs.Stamp as model;

use jiff::Timestamp;
use jiff::tz::Offset;
use ps_base::Memory;
use ps_types::Text;
use std::alloc::Global;

/// The text of the moment that is so many seconds after 1970-01-01T00:00:00Z, by a clock at UTC: `2001-09-09T01:46:40Z`. The moment is before
/// 9999-01-01T00:00:00Z.
pub fn stamp(alloc: Global, moment: u64) -> Result<Text, Memory>
    requires early { moment < 253370764800 }
    ensures text { IfOk result (λ t. t ≡ model.stamp moment) }
{
    match Timestamp::from_second(moment as i64) {
        Ok(at) => {
            let shown = Offset::UTC.to_datetime(at);
            let text = format!(in alloc; "{shown}Z")?;
            Ok(Text::from_string(text))
        }
        Err(_) => unreachable!(),
    }
}

/// The stamp of a moment is the text of the date and time that a clock at UTC shows then, as `jiff` has them, and a `Z`.
pub fn stamp_is_utc()
    ensures { (moment : ℕ) (shown : DateTime) → civil_nanos shown ≡ pos (moment * 1_000_000_000)
        → model.stamp moment ≡ iso_datetime_text shown ++ codes "Z" }
{}
