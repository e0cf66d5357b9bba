//! The ring's two ends as a reader and a writer of any ring: `RingEye`, `RingPen`.
ghost use Rattle.hb_ring.specs.Passes.{IsWriterOf, IsReaderOf};

use crate::passes::{ReaderPass, WriterPass};
use crate::ring::Ring;
use hb_look::{Keep, Look, Looked, Put, Record};

/// A reader's pass lent to its ring, through which it looks.
#[derive(Drop)]
pub struct RingEye<'a> {
    pub ring: &'a Ring,
    pub pass: &'a mut ReaderPass,
    /// The pass is of the ring.
    ghost of: { IsReaderOf ring.now pass.now },
}

impl<'a> Look for RingEye<'a> {
    ghost use Rattle.std.specs.Prelude.{ℕ};
    ghost use Rattle.hb_ring_rule.specs.Views.{Laid};

    ghost reader = { λ eye. eye.pass.now.reader };

    ghost tells = { λ eye log. ⊥ };

    ghost takes_memory = { λ eye. ⊥ };

    ghost Fixed = { Laid × ℕ };

    ghost fixed = { λ eye. (eye.ring.now, eye.pass.ghost_name) };

    fn look(&mut self, position: u64, moment: u64, out: &mut Record) -> Looked {
        self.ring.look(self.pass, position, moment, out)
    }

    fn top(&mut self) -> u64 {
        self.ring.top(self.pass)
    }

    fn capacity(&self) -> u64 {
        self.ring.capacity()
    }

    fn looked(&self) -> u64 {
        self.pass.looked()
    }

    ghost bounds = { λ eye. (eye.of.3, eye.of.4) };
}

/// The writer's pass lent to its ring, through which it puts records.
#[derive(Drop)]
pub struct RingPen<'a> {
    pub ring: &'a Ring,
    pub pass: &'a mut WriterPass,
    /// The pass is of the ring.
    ghost of: { IsWriterOf ring.now pass.now },
}

impl<'a> Keep for RingPen<'a> {
    ghost use Rattle.std.specs.Prelude.{◌≡◌, ℕ, length};
    ghost use Rattle.std.proofs.Common.{ap, sym};
    ghost use Rattle.hb_ring_rule.specs.Views.{Laid};
    ghost use Rattle.hb_ring_rule.specs.Layout.{longest_of};

    ghost stands_for = { λ pen log. pen.pass.now.log ≡ log };

    ghost written = { λ pen. length pen.pass.now.log };

    ghost longest = { λ pen. longest_of pen.ring.now.shape };

    ghost takes_memory = { λ pen. ⊥ };

    ghost Fixed = { Laid × ℕ };

    ghost fixed = { λ pen. (pen.ring.now, pen.pass.ghost_name) };

    /// The cost is that of `Ring::write`.
    fn put(&mut self, bytes: &[u8]) -> Put {
        self.ring.write(self.pass, bytes)
    }

    ghost counts = { λ pen log stands. ap length (sym stands) };
}
