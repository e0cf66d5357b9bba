//! The time of day.
ghost use Rattle.std.specs.Prelude.{◌≡◌};
ghost use Rattle.std.specs.Option.{ForSome};

/// A clock that gives the moment.
pub trait Clock {
    ghost use Rattle.std.specs.Prelude.{ℕ, Option};

    /// The moment, where it tells it: nanoseconds since 1970-01-01T00:00:00Z.
    ghost moment: { Self → Option ℕ };

    /// The moment, in nanoseconds since 1970-01-01T00:00:00Z.
    fn now(&self) -> u64
        ensures told { ForSome (moment self.now) (λ m. result ≡ m) };
}
