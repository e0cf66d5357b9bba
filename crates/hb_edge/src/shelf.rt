//! Files that can be read.
ghost use Rattle.std.specs.Prelude.{◌≡◌, ◌<◌, ◌≤◌, length};
ghost use Rattle.std.specs.Option.{ForSome};
ghost use Rattle.hb_edge.specs.Causes.{Rose};
ghost use Rattle.hb_edge.specs.Shelf.{ShelvedWithin, ReadsFile};

/// What a read answers.
#[derive(Clone, Copy, Debug, PartialEq, Eq)]
pub enum Shelved {
    /// This many bytes stand at the front of the buffer.
    Took(usize),
    /// The file has no byte at the place or past it.
    End,
    /// Nothing was read.
    Failed,
}

/// Files that are read by their names.
pub trait Shelf {
    ghost use Rattle.std.specs.Prelude.{ℕ, List, Option};
    ghost use Rattle.hb_edge.specs.declared.shelf.Shelved.{Shelved};
    ghost use Rattle.hb_edge.specs.Shelf.{Files};

    /// The files that it has, where it tells of them.
    ghost files: { Self → Option Files };

    /// How many of its calls failed. The count stops at 2^64 - 1.
    ghost faults: { Self → ℕ };

    /// What a read answers: by the name, the place and the buffer's length.
    ghost answer: { Self → List ℕ → ℕ → ℕ → Shelved };

    /// The shelf after that read.
    ghost after: { Self → List ℕ → ℕ → ℕ → Self };

    /// What no call changes: the loans that it holds, if any.
    ghost Fixed: { Type 0 };

    ghost fixed: { Self → Self.Fixed };

    /// Reads bytes of the file of this name, from the byte at `at` on, to the front of `buf`.
    fn read(&mut self, name: &str, at: u64, buf: &mut [u8]) -> Shelved
        requires { 0 < length buf.old }
        ensures within { ShelvedWithin result (length buf.old) }
        ensures room { length buf.new ≡ length buf.old }
        ensures later { faults self.old ≤ faults self.new }
        ensures cause { result ≡ Shelved.Failed → Rose (faults self.old) (faults self.new) }
        ensures kept { files self.new ≡ files self.old }
        ensures told { ForSome (files self.old) (λ f. ReadsFile (f name.now) at result buf.new) }
        ensures exact { ForSome (files self.old)
            (λ _. (result ≡ answer self.old name.now at (length buf.old))
            × (self.new ≡ after self.old name.now at (length buf.old))) }
        ensures fixed { fixed self.new ≡ fixed self.old };

    /// How many calls failed.
    fn faults(&self) -> u64
        ensures count { result ≡ faults self.now };
}
