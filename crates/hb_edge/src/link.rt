//! A two-way connection to a far side.
ghost use Rattle.std.specs.Prelude.{◌≡◌, ◌⊎◌, ◌<◌, [], length};
ghost use Rattle.std.specs.Option.{ForSome};
ghost use Rattle.hb_edge.specs.Causes.{Rose};
ghost use Rattle.hb_edge.specs.Link.{Read, Write, ReadWithin, WrittenWithin, IsDry, HasMoved, moved_of};

/// What a read or a write of a link answers.
#[derive(Clone, Copy, Debug, PartialEq, Eq)]
pub enum Moved {
    /// This many bytes were moved, at the front of the buffer or the piece.
    Took(usize),
    /// None was moved. It may be later.
    NotYet,
    /// The far side has ended, and all its bytes were read.
    End,
    /// None was moved.
    Failed,
}

/// A connection that is read and written without waiting.
pub trait Link {
    ghost use Rattle.std.specs.Prelude.{Option};
    ghost use Rattle.hb_edge.specs.declared.link.Moved.{Moved};
    ghost use Rattle.hb_edge.specs.Link.{Call, Held, Shown};

    /// What it holds, where it tells.
    ghost held: { Self → Option Held };

    /// Its counts of faults, of waits and of refusals, and its key.
    ghost shown: { Self → Shown };

    /// What a call answers, if no memory is refused.
    ghost answer: { Self → Call → Moved };

    /// The link after that call.
    ghost after: { Self → Call → Self };

    /// What no call changes: the loans that it holds, if any.
    ghost Fixed: { Type 0 };

    ghost fixed: { Self → Self.Fixed };

    /// Reads bytes that wait, at least one, to the front of `buf`.
    fn poll_read(&mut self, buf: &mut [u8]) -> Moved
        requires { 0 < length buf.old }
        ensures within { ReadWithin result (length buf.old) }
        ensures room { length buf.new ≡ length buf.old }
        ensures moved { HasMoved shown held after fixed self.old self.new
            (moved_of buf.new result) [] }
        ensures dry { ForSome (held self.old) (λ h. IsDry h result) }
        ensures cause { result ≡ Moved.Failed
            → Rose (shown self.old).faults (shown self.new).faults }
        ensures waits { result ≡ Moved.NotYet
            → Rose (shown self.old).read_waits (shown self.new).read_waits }
        ensures exact { ForSome (held self.old)
            (λ _. (result ≡ answer self.old (Read (length buf.old)))
            × (self.new ≡ after self.old (Read (length buf.old)))) }
        ensures kept { (shown self.new).refusals ≡ (shown self.old).refusals };

    /// Takes bytes from the front of the piece, at least one.
    fn poll_write(&mut self, piece: &[u8]) -> Moved
        requires { 0 < length piece.now }
        ensures within { WrittenWithin result (length piece.now) }
        ensures moved { HasMoved shown held after fixed self.old self.new
            [] (moved_of piece.now result) }
        ensures cause { result ≡ Moved.Failed
            → Rose (shown self.old).faults (shown self.new).faults }
        ensures waits { result ≡ Moved.NotYet
            → Rose (shown self.old).write_waits (shown self.new).write_waits }
        ensures exact { ForSome (held self.old) (λ _.
            ((result ≡ answer self.old (Write piece.now))
            × (self.new ≡ after self.old (Write piece.now)))
            ⊎ ((result ≡ Moved.Failed)
            × Rose (shown self.old).refusals (shown self.new).refusals)) };

    /// How many calls failed. The count stops at 2^64 - 1.
    fn faults(&self) -> u64
        ensures count { result ≡ (shown self.now).faults };

    /// How many reads answered `NotYet`. The count stops at 2^64 - 1.
    fn read_waits(&self) -> u64
        ensures count { result ≡ (shown self.now).read_waits };

    /// How many writes answered `NotYet`. The count stops at 2^64 - 1.
    fn write_waits(&self) -> u64
        ensures count { result ≡ (shown self.now).write_waits };

    /// The number that it is told apart by. No call changes it.
    fn key(&self) -> u64
        ensures value { result ≡ (shown self.now).key };
}
