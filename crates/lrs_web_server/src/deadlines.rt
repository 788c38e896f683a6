//! How long a client is waited for.

use std::time::{Duration, Instant};

/// So many milliseconds later; at the end of the clock's time, the same instant.
pub(crate) fn later(now: Instant, millis: u64) -> Instant {
    match now.checked_add(Duration::from_millis(millis)) {
        Some(until) => until,
        None => now,
    }
}
