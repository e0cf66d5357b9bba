//! The whole reply from a ring that is no longer written, by the looks of a session and by the events of
//! its window.
ghost use Rattle.std.specs.Prelude.{◌≡◌, ◌≤◌, ◌<◌, ℕ, List, [], length, take, true, false, IfOk, IfErr};
ghost use Rattle.std.specs.List.{AllByRecursion};
ghost use Rattle.hb_api.specs.Limits.{longest_name};
ghost use Rattle.hb_flow.specs.declared.event.Event.{Event};
ghost use Rattle.hb_session.specs.Events.{is_flow};
ghost use Rattle.hb_session.specs.Openings.{Opening, opened};
ghost use Rattle.hb_session.specs.Refusals.{IsRefusal};
ghost use Rattle.hb_session.specs.Window.{window};
ghost use Rattle.hb_session.specs.Whole.{IsReply, HasEvents, GivesFirst, GivesLast, passing, frames_of};

use crate::{NodeSession, OpenFault, Turn, finish};
use hb_api::GetFlowsRequest;
use hb_edge::MemLink;
use hb_frame::FrameReader;
use hb_look::Look;
use std::alloc::Global;

/// The moment of each look: no clock is asked.
const MOMENT: u64 = 0;

/// The key of the one link.
const LINK: u64 = 0;

/// The link that has taken the whole reply to a request, by a session that is turned to its end. The
/// reader made no look before. Each event of the window that is read costs a look, and a turn or two.
pub fn reply_of<R: Look>(
    alloc: Global,
    reader: &mut R,
    request: &GetFlowsRequest,
    name: &str,
) -> Result<MemLink, OpenFault>
    requires fresh { (R.reader reader.old).looks ≡ [] }
    requires name { length name.now ≤ longest_name }
    requires ends { request.now.follow ≡ false }
    ensures ok { IfOk result (λ link. (log : List (List ℕ)) → R.tells reader.old log
        → IsReply (opened request.now name.now (length log) (R.reader reader.old).capacity)
        (R.reader reader.old).capacity log link.taken) }
    ensures refused { IfErr result (IsRefusal request.now) }
    ensures fixed { R.fixed reader.new ≡ R.fixed reader.old }
{
    let top = reader.top();
    let mut session = NodeSession::open(alloc, request, name, top, reader.capacity())?;
    let Ok(mut link) = MemLink::new(alloc, LINK) else {
        return Err(OpenFault::NoMemory);
    };
    // The client is silent.
    link.end();
    let Ok(mut input) = FrameReader::new(alloc) else {
        return Err(OpenFault::NoMemory);
    };
    match finish(&mut session, reader, &mut input, &mut link, MOMENT) {
        Turn::Done => Ok(link),
        Turn::NoMemory => Err(OpenFault::NoMemory),
        _ => {
            // This link fails for no other cause and makes no write wait, and no look is refused.
            prove!(link.starved());
            Err(OpenFault::NoMemory)
        }
    }
}

/// An opening has at most one reply from a log.
pub fn one_reply()
    ensures one { (o : Opening) (cap : ℕ) (log : List (List ℕ)) (x y : List ℕ)
        → IsReply o cap log x → IsReply o cap log y → x ≡ y }
{}

/// The reply to a request for all: the frames of the window's events that pass, in their order, and that
/// of the status.
pub fn whole_window()
    ensures window { (o : Opening) (cap : ℕ) (log : List (List ℕ)) (events : List Event)
        (bytes : List ℕ) → HasEvents o log events → IsReply o cap log bytes → o.request.number ≡ 0
        → bytes ≡ frames_of o (passing o events) }
{}

/// The reply to a request for the first flows: what passes of the window's events up to the first one at
/// which there are that many flows, or of all of them.
pub fn first_of_window()
    ensures first { (o : Opening) (cap : ℕ) (log : List (List ℕ)) (events : List Event)
        (bytes : List ℕ) → HasEvents o log events → IsReply o cap log bytes
        → 0 < o.request.number → o.request.first ≡ true → GivesFirst o events bytes }
    ensures flows_alone { (o : Opening) (cap : ℕ) (log : List (List ℕ)) (events : List Event)
        (bytes : List ℕ) → HasEvents o log events → IsReply o cap log bytes
        → 0 < o.request.number → o.request.first ≡ true
        → AllByRecursion (λ e. is_flow e ≡ true) events
        → bytes ≡ frames_of o (take o.request.number (passing o events)) }
{}

/// The reply to a request for the last flows: what passes of the window's events from the last one on
/// from which there are that many flows, or of all of them.
pub fn last_of_window()
    ensures last { (o : Opening) (cap : ℕ) (log : List (List ℕ)) (events : List Event)
        (bytes : List ℕ) → HasEvents o log events → IsReply o cap log bytes
        → 0 < o.request.number → o.request.first ≡ false → GivesLast o events bytes }
    ensures flows_alone { (o : Opening) (cap : ℕ) (log : List (List ℕ)) (events : List Event)
        (bytes : List ℕ) → HasEvents o log events → IsReply o cap log bytes
        → 0 < o.request.number → o.request.first ≡ false
        → AllByRecursion (λ e. is_flow e ≡ true) events
        → bytes ≡ frames_of o (window o.request.number (passing o events)) }
{}
