//! A window that is read backwards.
ghost use Rattle.std.specs.Prelude.{◌≡◌, ◌<◌, ◌≤◌, ◌+◌, ◌==◌, ◌++◌, length, take, IfOk, OnErr, IfSome};
ghost use Rattle.hb_look.specs.Limits.{most_records};
ghost use Rattle.hb_session.specs.Replies.{FitsFrame};
ghost use Rattle.hb_session.specs.Steps.{backward_unread, backward_place, backward_is_over, released, backward_read, backward_gone};

use crate::Loss;
use crate::event::is_flow;
use crate::opening::Opening;
use hb_flow::Event;
use hb_wire::NoMemory;
use std::alloc::Global;
use std::marker::Model;

/// What is known of a window that is read from its newest position on. The bytes that are held are kept
/// back to front, since each frame stands before those that were read before it.
#[derive(Drop)]
pub(crate) struct Backward {
    passed: u64,
    flows: u64,
    held: Vec<u8>,
}

impl Model for Backward {
    ghost use Rattle.std.specs.Prelude.{◌≤◌, reverse};
    ghost use Rattle.hb_session.specs.Steps.{Backward};

    ghost Value = { Backward };

    ghost view = { λ b. record {
      passed = b.passed;
      flows = b.flows;
      held = reverse b.held.items;
    } };

    ghost invariant = { λ b. b.flows ≤ b.passed };
}

impl Backward {
    /// Nothing was read yet.
    pub(crate) fn new(alloc: Global) -> Backward
        ensures { result ≡ backward_unread }
    {
        Backward {
            passed: 0,
            flows: 0,
            held: Vec::new(alloc),
        }
    }

    /// Whether the window is read.
    pub(crate) fn is_read(&self, opening: &Opening) -> bool
        ensures { result ≡ (self.now.passed == opening.now.size) }
    {
        self.passed == opening.size()
    }

    /// Whether the window is read, or there are as many flows as were asked for.
    fn is_over(&self, opening: &Opening) -> bool
        ensures { result ≡ backward_is_over opening.now self.now }
    {
        self.is_read(opening) || opening.are_enough(self.flows)
    }

    /// The position that is looked at next.
    pub(crate) fn place(&self, opening: &Opening) -> u64
        requires going { self.now.passed < opening.now.size }
        ensures place { result ≡ backward_place opening.now self.now }
        ensures bound { (result ≤ most_records)
            × (opening.now.low + opening.now.size ≤ most_records) }
    {
        opening.low() + opening.size() - 1 - self.passed
    }

    /// Appends what was held, once the window is read. The cost is that of a copy.
    fn release(&mut self, out: &mut Vec<u8>) -> Result<bool, NoMemory>
        ensures state { IfOk result (λ _. self.new ≡ (released self.old).state) }
        ensures put { IfOk result (λ _. out.new.items ≡ out.old.items ++ (released self.old).put) }
        ensures ended { IfOk result (λ ended. ended ≡ (released self.old).ended) }
        ensures err { OnErr result (out.new.items ≡ out.old.items) }
    {
        self.held.reverse();
        out.extend_from_slice(self.held.as_slice())?;
        self.held.clear();
        Ok(true)
    }

    /// A record was read: its event is held where it passes. Tells whether the window is read.
    #[tactic(auto, using(crate::proofs::Bytes::front_same, crate::proofs::Bytes::front_more))]
    pub(crate) fn read(
        &mut self,
        opening: &mut Opening,
        event: Option<Event>,
        out: &mut Vec<u8>,
    ) -> Result<bool, NoMemory>
        requires going { self.old.passed < opening.old.size }
        requires window { opening.old.size ≤ most_records }
        requires size { IfSome event (FitsFrame opening.old.name) }
        ensures state { IfOk result (λ _. self.new
            ≡ (backward_read opening.old self.old event).state) }
        ensures put { IfOk result (λ _. out.new.items
            ≡ out.old.items ++ (backward_read opening.old self.old event).put) }
        ensures ended { IfOk result (λ ended. ended
            ≡ (backward_read opening.old self.old event).ended) }
        ensures front { OnErr result (take (length out.old.items) out.new.items ≡ out.old.items) }
        ensures stays { opening.new ≡ opening.old }
    {
        if let Some(event) = event
            && opening.passes(&event)
        {
            let flows = self.flows + u64::from(is_flow(&event));
            opening.hold(event, &mut self.held)?;
            self.flows = flows;
        }
        self.passed += 1;
        if self.is_over(opening) {
            return self.release(out);
        }
        Ok(false)
    }

    /// Each position that is left was found overwritten: their lost event stands before what is held, and
    /// the window is read.
    #[tactic(auto, using(crate::proofs::Bytes::front_same, crate::proofs::Bytes::front_more))]
    pub(crate) fn gone(
        &mut self,
        opening: &mut Opening,
        moment: u64,
        out: &mut Vec<u8>,
    ) -> Result<bool, NoMemory>
        requires going { self.old.passed < opening.old.size }
        ensures state { IfOk result (λ _. self.new
            ≡ (backward_gone opening.old self.old moment).state) }
        ensures put { IfOk result (λ _. out.new.items
            ≡ out.old.items ++ (backward_gone opening.old self.old moment).put) }
        ensures ended { IfOk result (λ ended. ended
            ≡ (backward_gone opening.old self.old moment).ended) }
        ensures front { OnErr result (take (length out.old.items) out.new.items ≡ out.old.items) }
        ensures stays { opening.new ≡ opening.old }
    {
        let count = opening.size() - self.passed;
        let event = opening.lost(Loss { count, moment })?;
        opening.hold(event, &mut self.held)?;
        self.passed = opening.size();
        self.release(out)
    }
}
