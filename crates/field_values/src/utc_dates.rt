// Times as dates in UTC.
ghost use Rattle.std.specs.Prelude.{◌≡◌, IfOk};
ghost use Rattle.serde_json.specs.View.{view};
ghost use Rattle.field_values.specs.MomentText.{IsShown};
ghost use Rattle.field_values.specs.UtcDates as spec;

use crate::moment_text::{SECONDS_TO_EPOCH, moment_text};
use header_dates::Moment;
use serde_json::Value;
use std::alloc::{AllocError, Global};

/// The last second of the year 9999, since 1970-01-01.
const LAST_SECOND: i64 = 253_402_300_799;

/// The second in UTC.
fn utc_moment(seconds: i64) -> Moment
    ensures value { result ≡ spec.utc_moment seconds }
    ensures shown { IsShown result }
{
    Moment {
        seconds: seconds.clamp(-SECONDS_TO_EPOCH, LAST_SECOND),
        offset_minutes: 0,
    }
}

/// The seconds since 1970-01-01T00:00:00Z as a UTCDate (RFC 8620 section 1.4), as `2024-01-02T10:00:00Z`. Outside the years 0 to 9999
/// it is the nearest second of them.
pub fn utc_value(alloc: Global, seconds: i64) -> Result<Value, AllocError>
    ensures { IfOk result (λ value. spec.IsUtcData seconds (view value)) }
{
    Ok(Value::String(moment_text(alloc, utc_moment(seconds))?))
}
