//! The laws of what a node keeps.
ghost use Rattle.std.specs.Prelude.{◌≡◌, ℕ, ◌≤◌, List, length, map, Some};
ghost use Rattle.std.specs.List.{AllByRecursion};
ghost use Rattle.hb_api.specs.declared.request.GetFlowsRequest.{GetFlowsRequest};
ghost use Rattle.hb_flow.specs.Messages.{EventFits};
ghost use Rattle.hb_flow.specs.declared.event.Event.{Event};
ghost use Rattle.hb_look.specs.Limits.{longest_record};
ghost use Rattle.hb_session.specs.Events.{event_of_record};
ghost use Rattle.hb_session.specs.Openings.{opened};
ghost use Rattle.hb_session.specs.Whole.{HasEvents};
ghost use Rattle.hb_session.specs.Window.{window};
ghost use Rattle.hb_observer.specs.Kept.{kept, log_of};

/// The records of the log hold the events that are kept, one each: so a session that reads a record of
/// it reads the event.
pub fn kept_is_read()
    ensures log { (slot : ℕ) (events : List Event) → slot ≤ longest_record
        → AllByRecursion EventFits events
        → map event_of_record (log_of slot events) ≡ map Some (map (kept slot) events) }
{}

/// A session that opens over a ring with this log has the last events that are kept, up to the ring's
/// capacity, as the events of its window.
pub fn window_is_kept()
    ensures events { (slot cap : ℕ) (events : List Event) (request : GetFlowsRequest)
        (name : List ℕ) → slot ≤ longest_record → AllByRecursion EventFits events
        → HasEvents (opened request name (length (log_of slot events)) cap) (log_of slot events)
        (window cap (map (kept slot) events)) }
{}
