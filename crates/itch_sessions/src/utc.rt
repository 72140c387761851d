//! The date and time of day.

use httpdate::HttpDate;
use std::rt::Clock;
use std::time::{SystemTime, UNIX_EPOCH};

/// Returns the milliseconds since 1970, if the clock provides them.
pub fn unix_ms<C: Clock>(clock: &C) -> Option<u64> {
    let now = SystemTime::now(clock).ok()?;
    let passed = now.duration_since(UNIX_EPOCH).ok()?;
    u64::try_from(passed.as_millis()).ok()
}

/// Returns the date for an HTTP response, if the clock provides it.
pub fn date<C: Clock>(clock: &C) -> Option<HttpDate> {
    HttpDate::from_unix_secs(unix_ms(clock)? / 1_000).ok()
}
