//! The laws of what a client is owed.
ghost use Rattle.std.specs.Prelude.{◌≡◌, ◌+◌, ◌<◌, ◌≤◌, ℕ, List, ◌++◌, length, take, slice_get, Some, IfSome, false};
ghost use Rattle.std.specs.List.{All, AllByRecursion};
ghost use Rattle.hb_api.specs.Limits.{longest_name};
ghost use Rattle.hb_look.specs.Limits.{longest_record};
ghost use Rattle.hb_look.specs.Answers.{IsFoundAt};
ghost use Rattle.hb_look.specs.Looks.{Found, Got, LookMade, after};
ghost use Rattle.hb_session.specs.Events.{event_of_record, lost_event};
ghost use Rattle.hb_session.specs.Openings.{Opening};
ghost use Rattle.hb_session.specs.Replies.{FitsFrame, owed, spelled, AreMade};
ghost use Rattle.hb_session.specs.Sessions.{TurnMade, HasGoneOn, all_looks, all_bytes};
ghost use Rattle.hb_session.specs.Window.{window_start};

/// Among the looks that a session makes, what is owed only grows: the frames that were owed before some
/// of them begin those that are owed after them, and so do their bytes.
pub fn owed_only_grows()
    ensures grows { (o : Opening) (looks more : List LookMade) → AreMade o (looks ++ more)
        → take (length (owed o looks)) (owed o (looks ++ more)) ≡ owed o looks }
    ensures bytes { (o : Opening) (looks more : List LookMade) → AreMade o (looks ++ more)
        → take (length (spelled (owed o looks))) (spelled (owed o (looks ++ more)))
        ≡ spelled (owed o looks) }
{}

/// Turns for a reply that does not follow, each of which made a look that leads on, or handed on a byte,
/// are few: no more than the window has positions and the reply bytes.
pub fn turns_are_few()
    ensures few { (o : Opening) (turns : List TurnMade) → o.request.follow ≡ false
        → AreMade o (all_looks turns)
        → All (λ look. look.position < after look) (all_looks turns)
        → length (all_bytes turns) ≤ length (spelled (owed o (all_looks turns)))
        → AllByRecursion HasGoneOn turns
        → length turns ≤ o.size + length (spelled (owed o (all_looks turns))) }
{}

/// Each response of a session fits a frame: that for the event of a record, however it is spelled,
/// and that for a stretch. So no event is left out for its size.
pub fn responses_fit()
    ensures read { (name bytes : List ℕ) → length name ≤ longest_name
        → length bytes ≤ longest_record → IfSome (event_of_record bytes) (FitsFrame name) }
    ensures lost { (name : List ℕ) (count moment : ℕ) → length name ≤ longest_name
        → FitsFrame name (lost_event count moment) }
{}

/// A look at a position of the window of the last `cap` records of a log finds the record that the log
/// has there.
pub fn window_is_held()
    ensures held { (log : List (List ℕ)) (cap position : ℕ) (found : Found)
        → IsFoundAt log cap position found → window_start (length log) cap ≤ position
        → position < length log
        → (bytes : List ℕ) × (found ≡ Got bytes) × (slice_get log position ≡ Some bytes) }
{}
