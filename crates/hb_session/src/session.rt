//! One reply of a node, handed to a link turn by turn.
ghost use Rattle.std.specs.Prelude.{◌≡◌, ◌≢◌, ◌↔◌, ◌⊎◌, ◌<◌, ◌≤◌, [], length, max, Some, None, IfOk, IfErr, true, false};
ghost use Rattle.std.specs.Option.{ForSome};
ghost use Rattle.hb_edge.specs.Causes.{Rose};
ghost use Rattle.hb_edge.specs.declared.link.Moved.{Moved};
ghost use Rattle.hb_edge.specs.Link.{HasMoved, Write};
ghost use Rattle.hb_api.specs.Limits.{longest_name};
ghost use Rattle.hb_look.specs.Limits.{largest_capacity, most_records};
ghost use Rattle.hb_look.specs.Looks.{added};
ghost use Rattle.hb_look.specs.Progress.{HasLooked};
ghost use Rattle.hb_session.specs.Openings.{opened, top};
ghost use Rattle.hb_session.specs.Refusals.{refusal, IsRefusal};
ghost use Rattle.hb_session.specs.Stands.{counts_of};
ghost use Rattle.hb_session.specs.Works.{IsOneLook, HasLed, HasWaited};
ghost use Rattle.hb_session.specs.Clients.{unheard, HasHeard, IsHeardOf, heard_of, is_for_client, IsInputAfter, IsStoppedBy, IsStopped};
ghost use Rattle.hb_session.specs.Sessions.{SessionStandsFor, HaveTurned, HasDone, IsNearer, IsAnswerTo, IsWrittenOf, heard_by, gained, ended_by};

use crate::inbox::Inbox;
use crate::outbox::Outbox;
use crate::refusal::check;
use crate::source::{Source, Worked};
use crate::{Counts, OpenFault, Turn};
use hb_api::GetFlowsRequest;
use hb_edge::{Link, Moved};
use hb_frame::FrameReader;
use hb_look::Look;
use std::alloc::Global;
use std::marker::Model;

/// One reply of a node to one client.
#[derive(Drop)]
pub struct NodeSession {
    source: Source,
    outbox: Outbox,
    inbox: Inbox,
    sent: u64,
    moment: u64,
    answer: Option<Turn>,
}

impl Model for NodeSession {
    ghost use Rattle.std.specs.Prelude.{◌≡◌, ◌≤◌, None};
    ghost use Rattle.hb_look.specs.Limits.{largest_capacity};
    ghost use Rattle.hb_session.specs.Sessions.{Session, IsReady, IsEnding};

    ghost Value = { Session };

    ghost view = { λ s. record {
      source = s.source;
      waiting = s.outbox;
      sent = s.sent;
      moment = s.moment;
      heard = s.inbox;
      answer = s.answer;
    } };

    ghost invariant = { λ s. (s.source.opening.size ≤ largest_capacity)
        × (s.answer ≡ None → IsReady s.source s.outbox) × IsEnding s.answer };
}

impl NodeSession {
    /// A session that answers a request, at a ring of this capacity whose reader has seen `top`
    /// records. The reply is about the last `cap` of these, or all.
    pub fn open(
        alloc: Global,
        request: &GetFlowsRequest,
        name: &str,
        top: u64,
        cap: u64,
    ) -> Result<NodeSession, OpenFault>
        requires top { top ≤ most_records }
        requires cap { cap ≤ largest_capacity }
        requires name { length name.now ≤ longest_name }
        ensures opening { IfOk result (λ session. session.source.opening
            ≡ opened request.now name.now top cap) }
        ensures stands { IfOk result (λ session. SessionStandsFor session [] []) }
        ensures going { IfOk result (λ session. (session.answer ≡ None) × (session.moment ≡ 0)
            × (session.heard ≡ unheard)) }
        ensures passes { IfOk result (λ _. refusal request.now ≡ None) }
        ensures refused { IfErr result (IsRefusal request.now) }
    {
        check(alloc, request)?;
        let size = top.min(cap);
        let mut outbox = Outbox::new(alloc);
        let Ok(inbox) = Inbox::new(alloc) else {
            return Err(OpenFault::NoMemory);
        };
        let Ok(source) = Source::open(alloc, request, name, top - size, size, &mut outbox.bytes)
        else {
            return Err(OpenFault::NoMemory);
        };
        Ok(NodeSession {
            source,
            outbox,
            inbox,
            sent: 0,
            moment: 0,
            answer: None,
        })
    }

    /// Reads from the link once, unless the client's bytes have ended, and feeds what it gave to
    /// `input`; a frame of the client ends the session. Then it makes one write of bytes that wait or,
    /// where none waits, one look. The look's moment is the greatest that was told, in nanoseconds since
    /// 1970-01-01T00:00:00Z. The cost is that of the read and of the record or the write, but for the
    /// look that ends a window which is read backwards: it copies what it gives once.
    pub fn turn<R: Look, L: Link>(
        &mut self,
        reader: &mut R,
        input: &mut FrameReader,
        link: &mut L,
        now: u64,
    ) -> Turn
        requires seen { top self.old.source.opening ≤ (R.reader reader.old).finished.count }
        ensures turned { HaveTurned self.old self.new
            (added (R.reader reader.old).looks (R.reader reader.new).looks)
            (gained self.old self.new)
            × (self.old.source.opening.size ≤ largest_capacity) }

        // What becomes of the client's bytes, the reader and the link.
        ensures heard { self.old.answer ≡ None
            → HasHeard self.old.heard self.new.heard (L.shown link.old) (L.shown link.new)
            × IsInputAfter input.old input.new self.new.heard.piece result }
        ensures looked { HasLooked R.reader R.tells R.fixed reader.old reader.new
            × IsOneLook (R.reader reader.old) (R.reader reader.new) self.new.moment
            self.old.source.opening.request.follow }
        ensures moved { HasMoved L.shown L.held L.after L.fixed link.old link.new
            (heard_by self.old.answer self.new.heard.piece) (gained self.old self.new) }
        ensures alone { (0 < length self.old.waiting) ⊎ IsStopped self.new.heard result
            → reader.new ≡ reader.old }
        ensures exact { self.old.answer ≡ None → ForSome (L.held link.old) (λ h.
            IsHeardOf L.answer link.old h self.old.heard self.new.heard
            × IsWrittenOf L.answer L.after self.old self.new.heard result
            (heard_of L.after self.old.heard.last link.old) link.new
            (L.shown link.old).refusals (L.shown link.new).refusals) }

        // What it answers, and when.
        ensures stopped { self.old.answer ≡ None
            → IsStoppedBy input.old self.new.heard.piece self.new.heard.last result }
        ensures more { result ≡ Turn.More
            → (self.old.source.opening.request.follow ≡ false → IsNearer self.old self.new)
            × ((0 < length (gained self.old self.new))
            ⊎ HasLed (added (R.reader reader.old).looks (R.reader reader.new).looks)) }
        ensures causes { self.old.answer ≡ None
            → (result ≡ Turn.Idle → ((0 < length self.old.waiting)
            × (self.new.waiting ≡ self.old.waiting) × (self.new.source ≡ self.old.source)
            × Rose (L.shown link.old).write_waits (L.shown link.new).write_waits)
            ⊎ ((self.old.source.opening.request.follow ≡ true)
            × HasWaited (added (R.reader reader.old).looks (R.reader reader.new).looks)))
            × (result ≡ Turn.LinkFault
            → ((0 < length self.old.waiting) ⊎ (self.new.heard.last ≡ Moved.Failed))
            × Rose (L.shown link.old).faults (L.shown link.new).faults)
            × (self.new.heard.last ≡ Moved.Failed → result ≡ Turn.LinkFault) }
        ensures done { HasDone self.old result
            (added (R.reader reader.old).looks (R.reader reader.new).looks)
            (gained self.old self.new) }
        ensures spent { self.old.answer ≡ None → result ≢ Turn.NoMemory → (result ≡ Turn.Spent)
            ↔ ((length (R.reader reader.old).looks ≡ most_records)
            × (self.old.waiting ≡ []) × (IsStopped self.new.heard result → ⊥)) }
        ensures ended { (self.new.answer ≡ ended_by result)
            × (self.old.answer ≡ None → self.new.moment ≡ max self.old.moment now) }
        ensures repeats { (answer : Turn) → self.old.answer ≡ Some answer → (result ≡ answer)
            × (self.new ≡ self.old) × (reader.new ≡ reader.old) × (input.new ≡ input.old)
            × (link.new ≡ link.old) }
    {
        if let Some(answer) = self.answer {
            return answer;
        }
        self.moment = self.moment.max(now);
        if let Some(answer) = self.inbox.hear(input, link) {
            self.answer = answer.ending();
            return answer;
        }
        if self.outbox.waiting().is_empty() {
            return self.look_on(reader);
        }
        self.send_on(link)
    }

    /// How many bytes of the reply the link has taken. The count stops at 2^64 - 1.
    pub fn sent(&self) -> u64
        ensures value { result ≡ self.now.sent }
    {
        self.sent
    }

    /// How many bytes of the reply wait to be taken.
    pub fn waiting(&self) -> u64
        ensures value { result ≡ length self.now.waiting }
    {
        self.outbox.waiting().len() as u64
    }

    /// How many records were given and passed over, and how many positions were lost, so far.
    pub fn counts(&self) -> Counts
        ensures value { result ≡ counts_of self.now.source }
    {
        self.source.counts()
    }

    /// Makes the next look, and puts what becomes owed by it.
    fn look_on<R: Look>(&mut self, reader: &mut R) -> Turn
        requires going { (self.old.answer ≡ None) × (self.old.waiting ≡ []) }
        requires seen { top self.old.source.opening ≤ (R.reader reader.old).finished.count }
        ensures turned { HaveTurned self.old self.new
            (added (R.reader reader.old).looks (R.reader reader.new).looks) [] }
        ensures looked { HasLooked R.reader R.tells R.fixed reader.old reader.new
            × IsOneLook (R.reader reader.old) (R.reader reader.new) self.old.moment
            self.old.source.opening.request.follow }
        ensures more { result ≡ Turn.More
            → (self.old.source.opening.request.follow ≡ false → IsNearer self.old self.new)
            × HasLed (added (R.reader reader.old).looks (R.reader reader.new).looks) }
        ensures idle { result ≡ Turn.Idle → (self.old.source.opening.request.follow ≡ true)
            × HasWaited (added (R.reader reader.old).looks (R.reader reader.new).looks) }
        ensures spent { (result ≡ Turn.Spent)
            ↔ (length (R.reader reader.old).looks ≡ most_records) }
        ensures answers { (result ≢ Turn.Done) × (result ≢ Turn.LinkFault)
            × (is_for_client result ≡ false) }
        ensures going { result ≢ Turn.NoMemory → self.new.source.ended ≡ true
            → 0 < length self.new.waiting }
        ensures ended { (self.new.answer ≡ ended_by result) × (self.new.moment ≡ self.old.moment)
            × (self.new.heard ≡ self.old.heard) }
    {
        let worked = self
            .source
            .work(reader, self.moment, &mut self.outbox.bytes);
        let answer = match worked {
            Worked::More => Turn::More,
            Worked::Idle => Turn::Idle,
            Worked::Spent => Turn::Spent,
            Worked::NoMemory => Turn::NoMemory,
        };
        self.answer = answer.ending();
        answer
    }

    /// Hands on bytes that wait.
    fn send_on<L: Link>(&mut self, link: &mut L) -> Turn
        requires going { (self.old.answer ≡ None) × (0 < length self.old.waiting) }
        ensures turned { HaveTurned self.old self.new [] (gained self.old self.new) }
        ensures moved { HasMoved L.shown L.held L.after L.fixed link.old link.new
            [] (gained self.old self.new) }
        ensures exact { ForSome (L.held link.old) (λ _.
            (IsAnswerTo self.old (L.answer link.old (Write self.old.waiting)) result
            × (link.new ≡ L.after link.old (Write self.old.waiting)))
            ⊎ ((result ≡ Turn.LinkFault)
            × Rose (L.shown link.old).refusals (L.shown link.new).refusals)) }
        ensures more { result ≡ Turn.More → IsNearer self.old self.new
            × (0 < length (gained self.old self.new)) }
        ensures idle { result ≡ Turn.Idle → (self.new.waiting ≡ self.old.waiting)
            × Rose (L.shown link.old).write_waits (L.shown link.new).write_waits }
        ensures done { (result ≡ Turn.Done)
            ↔ ((self.new.source.ended ≡ true) × (self.new.waiting ≡ [])) }
        ensures fault { result ≡ Turn.LinkFault
            → Rose (L.shown link.old).faults (L.shown link.new).faults }
        ensures answers { (result ≢ Turn.Spent) × (result ≢ Turn.NoMemory)
            × (is_for_client result ≡ false) }
        ensures source { self.new.source ≡ self.old.source }
        ensures ended { (self.new.answer ≡ ended_by result) × (self.new.moment ≡ self.old.moment)
            × (self.new.heard ≡ self.old.heard) }
    {
        let moved = self.outbox.send(link);
        let answer = match moved {
            Moved::Took(count) => {
                self.sent = self.sent.saturating_add(count as u64);
                if self.source.has_ended() && self.outbox.waiting().is_empty() {
                    Turn::Done
                } else {
                    Turn::More
                }
            }
            Moved::NotYet => Turn::Idle,
            Moved::Failed => Turn::LinkFault,
            Moved::End => unreachable!(),
        };
        self.answer = answer.ending();
        answer
    }
}
