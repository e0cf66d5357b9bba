//! What the output of a job is, by the events of its recording.
ghost use Rattle.std.specs.Prelude.{ℕ, List, map};
ghost use Rattle.hb_flow.specs.declared.response.GetFlowsResponse.{GetFlowsResponse};
ghost use Rattle.hb_observer.specs.Kept.{kept, log_of};
ghost use Rattle.hb_recording.specs.Recording.{IsRecordingOf, events};
ghost use Rattle.hb_session.specs.Whole.{HasEvents};
ghost use Rattle.hb_session.specs.Window.{window};
ghost use Rattle.hb_words.specs.Limits.{IsWithin};
ghost use Rattle.hb_words.specs.declared.job.Observe.{Observe};
ghost use Rattle.hubblet.specs.Observe.{opening};

/// The window of a job's ring has the last `capacity` of the recording's events, each as the ring keeps
/// it. So the laws of `hb_session` on whole replies say which of them the output gives.
pub fn window_of_recording()
    ensures window { (j : Observe) (file : List ℕ) (rs : List GetFlowsResponse) → IsWithin j
        → IsRecordingOf file rs → HasEvents (opening j rs) (log_of j.slot (events rs))
        (window j.capacity (map (kept j.slot) (events rs))) }
{}
