//! A session that is turned until it has ended.
ghost use Rattle.std.specs.Prelude.{◌≡◌, ◌≢◌, ◌⊎◌, ◌+◌, ◌^◌, ◌<◌, ◌≤◌, ℕ, List, [], length, max, Some, None, true, false};
ghost use Rattle.std.specs.Option.{ForSome};
ghost use Rattle.std.specs.List.{All};
ghost use Rattle.hb_edge.specs.Causes.{Rose};
ghost use Rattle.hb_edge.specs.Link.{Held, HasMoved};
ghost use Rattle.hb_look.specs.Limits.{most_records};
ghost use Rattle.hb_look.specs.Looks.{added, after};
ghost use Rattle.hb_look.specs.Progress.{HasLooked};
ghost use Rattle.hb_session.specs.Openings.{top};
ghost use Rattle.hb_session.specs.Clients.{is_for_client, IsInputAfter, IsStoppedBy};
ghost use Rattle.hb_session.specs.Sessions.{HaveTurned, HasDone, EndsBy, ended_by};

use crate::{NodeSession, Turn};
use hb_edge::Link;
use hb_frame::FrameReader;
use hb_look::Look;

/// Turns a session that does not follow, until its answer is not `More`. At `Idle` it may be called
/// again. The cost is that of its turns.
pub fn finish<R: Look, L: Link>(
    session: &mut NodeSession,
    reader: &mut R,
    input: &mut FrameReader,
    link: &mut L,
    now: u64,
) -> Turn
    requires seen { top session.old.source.opening ≤ (R.reader reader.old).finished.count }
    requires ends { session.old.source.opening.request.follow ≡ false }
    ensures turned { (heard : List ℕ) × (bytes : List ℕ) × HaveTurned session.old session.new
        (added (R.reader reader.old).looks (R.reader reader.new).looks) bytes
        × HasMoved L.shown L.held L.after L.fixed link.old link.new heard bytes
        × (session.old.answer ≡ None
        → IsInputAfter input.old input.new heard result
        × IsStoppedBy input.old heard session.new.heard.last result)
        × HasDone session.old result
        (added (R.reader reader.old).looks (R.reader reader.new).looks) bytes }
    ensures looked { HasLooked R.reader R.tells R.fixed reader.old reader.new
        × All (λ look. (look.moment ≡ max session.old.moment now) × (look.position < after look))
        (added (R.reader reader.old).looks (R.reader reader.new).looks) }
    ensures ends { session.old.answer ≡ None → length (R.reader reader.old).looks ≤ 2 ^ 61
        → (Rose (L.shown link.old).faults (L.shown link.new).faults → ⊥)
        → (Rose (L.shown link.old).write_waits (L.shown link.new).write_waits → ⊥)
        → (result ≡ Turn.Done) ⊎ ((result ≡ Turn.NoMemory) ⊎ (is_for_client result ≡ true)) }
    ensures silent { session.old.answer ≡ None → input.old.held ≡ []
        → (h : Held) → L.held link.old ≡ Some h → h.unread ≡ [] → is_for_client result ≡ false }
    ensures causes { session.old.answer ≡ None
        → (result ≡ Turn.LinkFault → Rose (L.shown link.old).faults (L.shown link.new).faults)
        × (result ≡ Turn.Spent → most_records ≤ length (R.reader reader.new).looks)
        × (result ≡ Turn.Idle
        → Rose (L.shown link.old).write_waits (L.shown link.new).write_waits) }
    ensures last { session.old.answer ≡ None → ForSome (L.held link.old) (λ _.
        EndsBy L.answer L.after link.old link.new result
        ⊎ ((result ≡ Turn.LinkFault)
        × Rose (L.shown link.old).refusals (L.shown link.new).refusals)) }
    ensures ended { (result ≢ Turn.More) × (session.new.answer ≡ ended_by result)
        × (session.old.answer ≡ None → session.new.moment ≡ max session.old.moment now) }
    ensures repeats { (answer : Turn) → session.old.answer ≡ Some answer → (result ≡ answer)
        × (session.new ≡ session.old) × (reader.new ≡ reader.old) × (input.new ≡ input.old)
        × (link.new ≡ link.old) }
{
    loop {
        let answer = session.turn(reader, input, link, now);
        if answer != Turn::More {
            return answer;
        }
    }
}
