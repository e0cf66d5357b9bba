//! A span that is read forwards.
ghost use Rattle.std.specs.Prelude.{◌≡◌, ◌<◌, ◌≤◌, ◌+◌, ◌++◌, length, take, IfOk, OnErr, IfSome};
ghost use Rattle.std.specs.Option.{ForSome};
ghost use Rattle.hb_look.specs.Limits.{most_records};
ghost use Rattle.hb_session.specs.Replies.{FitsFrame};
ghost use Rattle.hb_session.specs.Steps.{forward_unread, is_at_end, forward_is_over, forward_read, forward_gone};

use crate::event::is_flow;
use crate::opening::Opening;
use crate::span::Span;
use crate::{Counts, Loss};
use hb_flow::Event;
use hb_wire::NoMemory;
use std::marker::Model;

/// What is known of a span that is read from its start on.
#[derive(Drop)]
pub(crate) struct Forward {
    place: u64,
    end: Option<u64>,
    flows: u64,
    loss: Option<Loss>,
    counts: Counts,
}

impl Model for Forward {
    ghost use Rattle.std.specs.Prelude.{◌+◌, ◌≤◌};
    ghost use Rattle.std.specs.Option.{ForSome};
    ghost use Rattle.hb_look.specs.Limits.{most_records};
    ghost use Rattle.hb_session.specs.Steps.{Forward, loss_count};

    ghost Value = { Forward };

    ghost view = { λ f. record {
      place = f.place;
      end = f.end;
      flows = f.flows;
      loss = f.loss;
      counts = f.counts;
    } };

    ghost invariant = { λ f. (f.place ≤ most_records) × ForSome f.end (λ e. e ≤ most_records)
        × (f.flows ≤ f.place) × (loss_count f.loss ≤ f.place)
        × (f.counts.given + f.counts.skipped + f.counts.lost ≤ f.place) };
}

impl Forward {
    /// Nothing was read yet.
    pub(crate) fn new(span: Span) -> Forward
        requires start { span.start ≤ most_records }
        requires end { ForSome span.end (λ e. e ≤ most_records) }
        ensures { result ≡ forward_unread span }
    {
        Forward {
            place: span.start,
            end: span.end,
            flows: 0,
            loss: None,
            counts: Counts {
                given: 0,
                skipped: 0,
                lost: 0,
            },
        }
    }

    /// How the span was read so far.
    pub(crate) fn counts(&self) -> Counts
        ensures { result ≡ self.now.counts }
    {
        self.counts
    }

    /// The position that is looked at next.
    pub(crate) fn place(&self) -> u64
        ensures place { result ≡ self.now.place }
        ensures bound { result ≤ most_records }
    {
        self.place
    }

    /// Whether the end is reached.
    pub(crate) fn is_at_end(&self) -> bool
        ensures { result ≡ is_at_end self.now }
    {
        match self.end {
            Some(end) => self.place == end,
            None => false,
        }
    }

    /// Whether nothing more is to be read, where an event came that is too late, or none.
    fn is_over(&self, opening: &Opening, late: bool) -> bool
        ensures { result ≡ forward_is_over opening.now self.now late }
    {
        self.is_at_end() || opening.are_given(self.flows) || late
    }

    /// A record was read: it ends a stretch. Tells whether the span is read. At `Err` it is as it was.
    #[tactic(auto, using(crate::proofs::Bytes::front_same, crate::proofs::Bytes::front_more))]
    pub(crate) fn read(
        &mut self,
        opening: &mut Opening,
        event: Option<Event>,
        out: &mut Vec<u8>,
    ) -> Result<bool, NoMemory>
        requires place { self.old.place < most_records }
        requires size { IfSome event (FitsFrame opening.old.name) }
        ensures state { IfOk result (λ _. self.new
            ≡ (forward_read opening.old self.old event).state) }
        ensures put { IfOk result (λ _. out.new.items
            ≡ out.old.items ++ (forward_read opening.old self.old event).put) }
        ensures ended { IfOk result (λ ended. ended
            ≡ (forward_read opening.old self.old event).ended) }
        ensures err { OnErr result (self.new ≡ self.old) }
        ensures front { OnErr result (take (length out.old.items) out.new.items ≡ out.old.items) }
        ensures stays { opening.new ≡ opening.old }
    {
        opening.put_loss(self.loss, out)?;
        let late = self.end.is_none() && opening.is_late(self.place, &event);
        if let Some(event) = event
            && opening.passes(&event)
        {
            let flows = self.flows + u64::from(is_flow(&event));
            opening.put(event, out)?;
            self.flows = flows;
            self.counts.given += 1;
        } else {
            self.counts.skipped += 1;
        }
        self.place += 1;
        self.loss = None;
        Ok(self.is_over(opening, late))
    }

    /// The next position was found overwritten, and so was each one before `next`. Tells whether the
    /// span is read.
    #[tactic(auto, using(crate::proofs::Bytes::front_same, crate::proofs::Bytes::front_more))]
    pub(crate) fn gone(
        &mut self,
        opening: &mut Opening,
        next: u64,
        moment: u64,
        out: &mut Vec<u8>,
    ) -> Result<bool, NoMemory>
        requires going { ForSome self.old.end (λ e. self.old.place < e) }
        requires next { (self.old.place < next) × (next ≤ most_records) }
        ensures state { IfOk result (λ _. self.new
            ≡ (forward_gone opening.old self.old next moment).state) }
        ensures put { IfOk result (λ _. out.new.items
            ≡ out.old.items ++ (forward_gone opening.old self.old next moment).put) }
        ensures ended { IfOk result (λ ended. ended
            ≡ (forward_gone opening.old self.old next moment).ended) }
        ensures front { OnErr result (take (length out.old.items) out.new.items ≡ out.old.items) }
        ensures err { OnErr result (self.new.counts
            ≡ (forward_gone opening.old self.old next moment).state.counts) }
        ensures stays { opening.new ≡ opening.old }
    {
        let place = match self.end {
            Some(end) => next.min(end),
            None => next,
        };
        let lost = place - self.place;
        let before = match self.loss {
            Some(loss) => loss.count,
            None => 0,
        };
        self.place = place;
        self.loss = Some(Loss {
            count: before + lost,
            moment,
        });
        self.counts.lost += lost;
        let ended = self.is_over(opening, false);
        if ended {
            opening.put_loss(self.loss, out)?;
        }
        Ok(ended)
    }
}
