//! An end that bytes are written to.
ghost use Rattle.std.specs.Prelude.{◌≡◌, ◌⊎◌, ◌<◌, ◌≤◌, length, Some};
ghost use Rattle.std.specs.Option.{ForSome};
ghost use Rattle.hb_edge.specs.Causes.{Rose};
ghost use Rattle.hb_edge.specs.Sink.{SunkWithin, appended};

/// What a write answers.
#[derive(Clone, Copy, Debug, PartialEq, Eq)]
pub enum Sunk {
    /// This many bytes of the piece's front were taken.
    Took(usize),
    /// None was taken.
    Failed,
}

/// An end that takes bytes in order.
pub trait Sink {
    ghost use Rattle.std.specs.Prelude.{ℕ, List, Option};
    ghost use Rattle.hb_edge.specs.declared.sink.Sunk.{Sunk};

    /// The bytes that it took so far, where it tells of them.
    ghost held: { Self → Option (List ℕ) };

    /// How many of its calls failed. The count stops at 2^64 - 1.
    ghost faults: { Self → ℕ };

    /// In how many of its calls memory was refused. The count stops at 2^64 - 1.
    ghost refusals: { Self → ℕ };

    /// What a write of this piece answers, if no memory is refused.
    ghost answer: { Self → List ℕ → Sunk };

    /// The sink after that write.
    ghost after: { Self → List ℕ → Self };

    /// What no call changes: the loans that it holds, if any.
    ghost Fixed: { Type 0 };

    ghost fixed: { Self → Self.Fixed };

    /// Takes bytes from the front of the piece, at least one.
    fn write(&mut self, piece: &[u8]) -> Sunk
        requires { 0 < length piece.now }
        ensures within { SunkWithin result (length piece.now) }
        ensures later { (faults self.old ≤ faults self.new)
            × (refusals self.old ≤ refusals self.new) }
        ensures cause { result ≡ Sunk.Failed → Rose (faults self.old) (faults self.new) }
        ensures told { ForSome (held self.old)
            (λ h. held self.new ≡ Some (appended h piece.now result)) }
        ensures exact { ForSome (held self.old) (λ _.
            ((result ≡ answer self.old piece.now) × (self.new ≡ after self.old piece.now))
            ⊎ ((result ≡ Sunk.Failed) × Rose (refusals self.old) (refusals self.new))) }
        ensures fixed { fixed self.new ≡ fixed self.old };

    /// How many calls failed.
    fn faults(&self) -> u64
        ensures count { result ≡ faults self.now };
}
