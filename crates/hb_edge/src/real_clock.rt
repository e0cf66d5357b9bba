//! The system's clock.
ghost use Rattle.std.specs.Prelude.{None};

use crate::Clock;
use std::cell::Cell;
use std::rt;

const NANOS_A_SECOND: u64 = 1_000_000_000;

/// The runtime's time of day. It tells nothing of the moment.
#[derive(Drop)]
pub struct RealClock<R: rt::Clock + Drop> {
    rt: R,
    faults: Cell<u64>,
}

impl<R: rt::Clock + Drop> RealClock<R> {
    /// The clock of this runtime.
    pub fn new(rt: R) -> Self {
        RealClock {
            rt,
            faults: Cell::new(0),
        }
    }

    /// How many calls failed. The count stops at 2^64 - 1.
    pub fn faults(&self) -> u64 {
        self.faults.get()
    }
}

impl<R: rt::Clock + Drop> Clock for RealClock<R> {
    ghost moment = { λ _. None };

    // A moment past the greatest number is that number. A clock that cannot be read gives 0.
    fn now(&self) -> u64 {
        match self.rt.since_1970() {
            Ok(time) => time
                .as_secs()
                .saturating_mul(NANOS_A_SECOND)
                .saturating_add(u64::from(time.subsec_nanos())),
            Err(_) => {
                self.faults.set(self.faults.get().saturating_add(1));
                0
            }
        }
    }
}
