//! A clock that stands at a moment.
ghost use Rattle.std.specs.Prelude.{◌≡◌, Some};

use crate::Clock;
use std::marker::Model;

/// Answers the moment that it was set to. A contract sees it as that moment.
#[derive(Drop)]
pub struct SetClock {
    moment: u64,
}

impl Model for SetClock {
    ghost use Rattle.std.specs.Prelude.{ℕ};

    ghost Value = { ℕ };

    ghost view = { λ c. c.moment };
}

impl SetClock {
    /// A clock at this moment, in nanoseconds since 1970-01-01T00:00:00Z.
    pub fn new(moment: u64) -> Self
        ensures moment { result ≡ moment }
    {
        SetClock { moment }
    }

    /// Sets the moment, in the same unit.
    pub fn set(&mut self, moment: u64)
        ensures moment { self.new ≡ moment }
    {
        self.moment = moment;
    }
}

impl Clock for SetClock {
    ghost moment = { λ c. Some c };

    fn now(&self) -> u64 {
        self.moment
    }
}
