//! The writer of a ring.
ghost use Rattle.std.specs.Prelude.{◌≡◌, ◌≢◌, ◌↔◌, ◌<◌, ◌≤◌, [], ◌∷◌, length};
ghost use Rattle.hb_look.specs.Limits.{most_records};
ghost use Rattle.hb_look.specs.Progress.{HasPut};

/// What became of a record that was put. After each answer but `Done` the ring is as it was.
#[derive(Clone, Copy, Debug, PartialEq, Eq)]
pub enum Put {
    /// The record has the next position.
    Done,
    /// The record has more bytes than the ring takes.
    TooLong,
    /// `MOST_RECORDS` records were put: there is no further position.
    Spent,
    /// There was no memory for the record's bytes.
    NoMemory,
}

/// A writer of a ring.
pub trait Keep {
    ghost use Rattle.std.specs.Prelude.{ℕ, List};

    /// The log of all records that were put into its ring, in order, is this.
    ghost stands_for: { Self → List (List ℕ) → Type 0 };

    /// How many records were put.
    ghost written: { Self → ℕ };

    /// The most bytes of a record.
    ghost longest: { Self → ℕ };

    /// Its puts may want memory. Those of a writer that takes none never do.
    ghost takes_memory: { Self → Type 0 };

    /// What no call changes: the loans that it holds, and the ring's other limits.
    ghost Fixed: { Type 0 };

    ghost fixed: { Self → Self.Fixed };

    /// Puts a copy of the record at the next position.
    fn put(&mut self, bytes: &[u8]) -> Put
        ensures done { result ≡ Put.Done
            → HasPut stands_for written longest fixed self.old self.new (bytes.now ∷ []) }
        ensures too_long { (result ≡ Put.TooLong) ↔ (longest self.old < length bytes.now) }
        ensures spent { (result ≡ Put.Spent)
            ↔ ((length bytes.now ≤ longest self.old) × (written self.old ≡ most_records)) }
        ensures kept { result ≢ Put.Done → self.new ≡ self.old }
        ensures memory { result ≡ Put.NoMemory → takes_memory self.old };

    /// The number of records is the log's length.
    ghost counts: { (w : Self) (log : List (List ℕ)) → stands_for w log → length log ≡ written w };
}
