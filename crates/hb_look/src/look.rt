//! The reader of a ring.
ghost use Rattle.std.specs.Prelude.{◌≡◌, ◌≢◌, ◌<◌, ◌≤◌, ℕ, List, length, IfSome};
ghost use Rattle.hb_look.specs.Limits.{longest_record, most_records, largest_capacity};
ghost use Rattle.hb_look.specs.Reader.{Loaded, HasCause};
ghost use Rattle.hb_look.specs.Answers.{found_by, with_look};
ghost use Rattle.hb_look.specs.Progress.{HasLooked};

use crate::buffer::Record;

/// What a look answers.
#[derive(Clone, Copy, Debug, PartialEq, Eq)]
pub enum Looked {
    /// The record is in the buffer.
    Got,
    /// The record was overwritten, or is being so, and so is each one before this position.
    Gone(u64),
    /// There is no record at the position yet.
    NotYet,
    /// Memory was refused: no look was made.
    NoMemory,
}

/// A reader of a ring. A ring has two counts: of the records that are finished, and of those that
/// were begun, which is one more while one is being written.
pub trait Look {
    ghost use Rattle.std.specs.Prelude.{◌≤◌, ℕ, List};
    ghost use Rattle.hb_look.specs.Limits.{longest_record, largest_capacity};
    ghost use Rattle.hb_look.specs.Reader.{Reader};

    /// The looks that it made, what it has seen of the two counts, and the ring's limits.
    ghost reader: { Self → Reader };

    /// It tells that the log of its ring is this. A reader may tell nothing.
    ghost tells: { Self → List (List ℕ) → Type 0 };

    /// Its looks may want memory. Those of a reader that takes none never do.
    ghost takes_memory: { Self → Type 0 };

    /// What no call changes: the loans that it holds.
    ghost Fixed: { Type 0 };

    ghost fixed: { Self → Self.Fixed };

    /// Looks at a position, at a moment in nanoseconds since 1970-01-01T00:00:00Z. A record that is
    /// there is put into the buffer, in the place of what it holds.
    fn look(&mut self, position: u64, moment: u64, out: &mut Record) -> Looked
        requires unspent { length (reader self.old).looks < most_records }
        requires place { position ≤ most_records }
        requires room { (reader self.old).longest ≤ out.old.room }
        ensures looked { HasLooked reader tells fixed self.old self.new }

        // The look is the reader's next, and has its cause in what it loaded.
        ensures listed { (reader self.new).looks ≡ with_look (reader self.old).looks
            (reader self.old).capacity position moment (found_by result out.new.bytes) }
        ensures cause { IfSome (found_by result out.new.bytes)
            (HasCause (reader self.old).capacity position (reader self.old) (reader self.new)) }
        ensures told { (log : List (List ℕ)) → tells self.old log → result ≢ Looked.NoMemory
            → (reader self.new).finished.count ≡ length log }
        ensures most { ((reader self.new).finished.count ≤ most_records)
            × ((reader self.new).begun.count ≤ most_records) }
        ensures no_memory { result ≡ Looked.NoMemory
            → (reader self.new ≡ reader self.old) × (out.new ≡ out.old) }
        ensures memory { result ≡ Looked.NoMemory → takes_memory self.old }
        ensures room { out.new.room ≡ out.old.room };

    /// Loads how many records are finished, which is the position of the next one.
    fn top(&mut self) -> u64
        ensures looked { HasLooked reader tells fixed self.old self.new }
        ensures looks { (reader self.new).looks ≡ (reader self.old).looks }
        ensures loaded { Loaded (reader self.old).finished (reader self.new).finished }
        ensures seen { result ≡ (reader self.new).finished.count }
        ensures told { (log : List (List ℕ)) → tells self.old log → result ≡ length log }
        ensures most { (result ≤ most_records)
            × ((reader self.new).begun.count ≤ most_records) };

    /// How many of the last records the ring keeps for its readers. It has one slot more.
    fn capacity(&self) -> u64
        ensures capacity { result ≡ (reader self.now).capacity };

    /// How many looks it made.
    fn looked(&self) -> u64
        ensures looked { (result ≡ length (reader self.now).looks)
            × (result ≤ most_records) };

    /// No ring keeps more records, or longer ones.
    ghost bounds: { (r : Self) → ((reader r).capacity ≤ largest_capacity)
        × ((reader r).longest ≤ longest_record) };
}
