//! The bytes that wait for a link.
ghost use Rattle.std.specs.Prelude.{◌≡◌, ◌⊎◌, ◌<◌, ◌≤◌, ◌++◌, [], length, drop};
ghost use Rattle.std.specs.Option.{ForSome};
ghost use Rattle.hb_edge.specs.Causes.{Rose};
ghost use Rattle.hb_edge.specs.Link.{WrittenWithin, HasMoved, Write, moved_of};

use hb_edge::{Link, Moved};
use std::alloc::Global;
use std::marker::Model;

/// Bytes in the order in which they were put, and how many of them were taken.
#[derive(Drop)]
pub(crate) struct Outbox {
    pub(crate) bytes: Vec<u8>,
    taken: usize,
}

impl Model for Outbox {
    ghost use Rattle.std.specs.Prelude.{ℕ, ◌^◌, ◌<◌, ◌≤◌, List, length, drop};

    ghost Value = { List ℕ };

    ghost view = { λ o. drop o.taken o.bytes.items };

    ghost invariant = { λ o. (o.taken ≤ length o.bytes.items)
        × (length o.bytes.items < 2 ^ 64) };
}

impl Outbox {
    /// Nothing waits.
    pub(crate) fn new(alloc: Global) -> Outbox
        ensures { result ≡ [] }
    {
        Outbox {
            bytes: Vec::new(alloc),
            taken: 0,
        }
    }

    /// The bytes that wait.
    pub(crate) fn waiting(&self) -> &[u8]
        ensures bytes { result.now ≡ self.now }
    {
        &self.bytes[self.taken..]
    }

    /// Hands bytes to the link, in one write. The room of what was taken is used again once nothing
    /// waits.
    #[tactic(auto, using(crate::proofs::Bytes::taken_rest))]
    pub(crate) fn send<L: Link>(&mut self, link: &mut L) -> Moved
        requires waits { 0 < length self.old }
        ensures within { WrittenWithin result (length self.old) }
        ensures rest { self.old ≡ moved_of self.old result ++ self.new }
        ensures moved { HasMoved L.shown L.held L.after L.fixed link.old link.new
            [] (moved_of self.old result) }
        ensures cause { result ≡ Moved.Failed
            → Rose (L.shown link.old).faults (L.shown link.new).faults }
        ensures waits { result ≡ Moved.NotYet
            → Rose (L.shown link.old).write_waits (L.shown link.new).write_waits }
        ensures exact { ForSome (L.held link.old) (λ _.
            ((result ≡ L.answer link.old (Write self.old))
            × (link.new ≡ L.after link.old (Write self.old)))
            ⊎ ((result ≡ Moved.Failed)
            × Rose (L.shown link.old).refusals (L.shown link.new).refusals)) }
    {
        let answer = link.poll_write(self.waiting());
        if let Moved::Took(count) = answer {
            self.took(count);
        }
        answer
    }

    /// So many bytes were taken.
    fn took(&mut self, count: usize)
        requires within { count ≤ length self.old }
        ensures { self.new ≡ drop count self.old }
    {
        self.taken += count;
        if self.taken == self.bytes.len() {
            self.bytes.clear();
            self.taken = 0;
        }
    }
}
