// The system's clock.
ghost use Rattle.std.specs.Prelude.{None};

use lq_outside::Clock;
use std::time::{SystemTime, UNIX_EPOCH};

/// The clock of the system. Where it cannot be read, or stands before 1970, it answers what it
/// answered last, at first 0.
#[derive(Drop)]
pub struct HostClock<'a> {
    rt: &'a HostRuntime,
    last: u64,
}

impl<'a> HostClock<'a> {
    pub fn new(rt: &'a HostRuntime) -> HostClock<'a> {
        HostClock { rt, last: 0 }
    }
}

impl Clock for HostClock<'_> {
    ghost last = { λ clock. clock.last };

    ghost to_come = { λ _. None };

    fn now(&mut self) -> u64 {
        if let Ok(now) = SystemTime::now(self.rt) {
            if let Ok(since) = now.duration_since(UNIX_EPOCH) {
                self.last = u64::try_from(since.as_millis()).unwrap_or(u64::MAX);
            }
        }
        self.last
    }
}
