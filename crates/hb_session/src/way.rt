//! The two ways of reading, and what follows a way that has ended.
ghost use Rattle.std.specs.Prelude.{◌≡◌, ◌<◌, ◌≤◌, ◌⊎◌, [], ◌++◌, length, take, IfOk, OnErr};
ghost use Rattle.hb_look.specs.Limits.{longest_record, most_records};
ghost use Rattle.hb_session.specs.Events.{event_of_record};
ghost use Rattle.hb_session.specs.Stands.{HasRoom};
ghost use Rattle.hb_session.specs.Ways.{way_unread, next_place, counts_by, is_read, is_followed, closed_by, way_read, way_gone};

use crate::Counts;
use crate::backward::Backward;
use crate::forward::Forward;
use crate::opening::Opening;
use crate::writer::put_status;
use hb_wire::NoMemory;
use std::alloc::Global;

/// How a reply is read.
#[derive(Drop)]
pub(crate) enum Way {
    Forward(Forward),
    Backward(Backward),
}

impl Way {
    /// Nothing was read yet.
    pub(crate) fn of(alloc: Global, opening: &Opening) -> Way
        ensures { result ≡ way_unread opening.now }
    {
        if opening.is_backward() {
            return Way::Backward(Backward::new(alloc));
        }
        Way::Forward(Forward::new(opening.span()))
    }

    /// The position that is looked at next.
    pub(crate) fn place(&self, opening: &Opening) -> u64
        requires going { HasRoom opening.now self.now }
        ensures place { result ≡ next_place opening.now self.now }
        ensures bound { result ≤ most_records }
    {
        match self {
            Way::Forward(forward) => forward.place(),
            Way::Backward(backward) => backward.place(opening),
        }
    }

    /// How the positions were read so far.
    pub(crate) fn counts(&self) -> Counts
        ensures { result ≡ counts_by self.now }
    {
        match self {
            Way::Forward(forward) => forward.counts(),
            Way::Backward(_) => Counts {
                given: 0,
                skipped: 0,
                lost: 0,
            },
        }
    }

    /// Whether each position was read.
    pub(crate) fn is_read(&self, opening: &Opening) -> bool
        ensures { result ≡ is_read opening.now self.now }
    {
        match self {
            Way::Forward(forward) => forward.is_at_end(),
            Way::Backward(backward) => backward.is_read(opening),
        }
    }

    /// Whether another way follows where this one ends.
    fn is_followed(&self, opening: &Opening) -> bool
        ensures { result ≡ is_followed opening.now self.now }
    {
        match self {
            Way::Forward(_) => false,
            Way::Backward(_) => opening.follows(),
        }
    }

    /// Goes on to what follows, where this way has come to its end: another way, or the frame of the
    /// status. Tells whether the reply has ended.
    #[tactic(auto, using(crate::proofs::Closing::closed_still, crate::proofs::Closing::closed_next, crate::proofs::Closing::closed_end))]
    pub(crate) fn close(
        &mut self,
        last: bool,
        opening: &Opening,
        out: &mut Vec<u8>,
    ) -> Result<bool, NoMemory>
        ensures state { IfOk result (λ _. self.new ≡ (closed_by opening.now
            (is_followed opening.now self.old) self.old [] last).state) }
        ensures put { IfOk result (λ _. out.new.items ≡ out.old.items ++ (closed_by opening.now
            (is_followed opening.now self.old) self.old [] last).put) }
        ensures ended { IfOk result (λ ended. ended ≡ (closed_by opening.now
            (is_followed opening.now self.old) self.old [] last).ended) }
        ensures err { OnErr result ((self.new ≡ self.old) × (out.new.items ≡ out.old.items)) }
    {
        if !last {
            return Ok(false);
        }
        if self.is_followed(opening) {
            *self = Way::Forward(Forward::new(opening.behind()));
            return Ok(false);
        }
        put_status(true, out)
    }

    /// The next position was read, and its record has these bytes. Tells whether the reply has ended.
    #[tactic(auto, using(crate::proofs::Bytes::front_same, crate::proofs::Bytes::front_more))]
    pub(crate) fn read(
        &mut self,
        opening: &mut Opening,
        bytes: &[u8],
        out: &mut Vec<u8>,
    ) -> Result<bool, NoMemory>
        requires going { HasRoom opening.old self.old }
        requires window { opening.old.size ≤ most_records }
        requires place { next_place opening.old self.old < most_records }
        requires size { length bytes.now ≤ longest_record }
        ensures state { IfOk result (λ _. self.new
            ≡ (way_read opening.old self.old (event_of_record bytes.now)).state) }
        ensures put { IfOk result (λ _. out.new.items ≡ out.old.items
            ++ (way_read opening.old self.old (event_of_record bytes.now)).put) }
        ensures ended { IfOk result (λ ended. ended
            ≡ (way_read opening.old self.old (event_of_record bytes.now)).ended) }
        ensures err { OnErr result ((counts_by self.new ≡ counts_by self.old) ⊎ (counts_by self.new
            ≡ counts_by (way_read opening.old self.old (event_of_record bytes.now)).state)) }
        ensures front { OnErr result (take (length out.old.items) out.new.items ≡ out.old.items) }
        ensures stays { opening.new ≡ opening.old }
    {
        let event = opening.event_of(bytes)?;
        let last = match self {
            Way::Forward(forward) => forward.read(opening, event, out)?,
            Way::Backward(backward) => backward.read(opening, event, out)?,
        };
        self.close(last, opening, out)
    }

    /// The next position was found overwritten, and so was each one before `next`. Tells whether the
    /// reply has ended.
    #[tactic(auto, using(crate::proofs::Bytes::front_same, crate::proofs::Bytes::front_more))]
    pub(crate) fn gone(
        &mut self,
        opening: &mut Opening,
        next: u64,
        moment: u64,
        out: &mut Vec<u8>,
    ) -> Result<bool, NoMemory>
        requires going { HasRoom opening.old self.old }
        requires next { (next_place opening.old self.old < next) × (next ≤ most_records) }
        ensures state { IfOk result (λ _. self.new
            ≡ (way_gone opening.old self.old next moment).state) }
        ensures put { IfOk result (λ _. out.new.items ≡ out.old.items
            ++ (way_gone opening.old self.old next moment).put) }
        ensures ended { IfOk result (λ ended. ended
            ≡ (way_gone opening.old self.old next moment).ended) }
        ensures err { OnErr result ((counts_by self.new ≡ counts_by self.old) ⊎ (counts_by self.new
            ≡ counts_by (way_gone opening.old self.old next moment).state)) }
        ensures front { OnErr result (take (length out.old.items) out.new.items ≡ out.old.items) }
        ensures stays { opening.new ≡ opening.old }
    {
        let last = match self {
            Way::Forward(forward) => forward.gone(opening, next, moment, out)?,
            Way::Backward(backward) => backward.gone(opening, moment, out)?,
        };
        self.close(last, opening, out)
    }
}
