//! The laws of recordings.
ghost use Rattle.std.specs.Prelude.{◌≡◌, ◌⊎◌, ℕ, List};
ghost use Rattle.std.specs.List.{AllByRecursion};
ghost use Rattle.hb_wire.specs.Varint.{AreBytes};
ghost use Rattle.hb_flow.specs.Messages.{EventFits};
ghost use Rattle.hb_flow.specs.declared.response.GetFlowsResponse.{GetFlowsResponse};
ghost use Rattle.hb_recording.specs.Recording.{Recorded, IsRecordingOf, IsBadRecord, canonical, events};

/// A file is a recording of one list of responses, or bad at one place, and not both.
pub fn one_reading()
    ensures each { (file : List ℕ) → AreBytes file
        → ((rs : List GetFlowsResponse) × Recorded file rs) ⊎ ((at : ℕ) × IsBadRecord file at) }
    ensures responses { (file : List ℕ) (rs ss : List GetFlowsResponse) → Recorded file rs
        → Recorded file ss → rs ≡ ss }
    ensures place { (file : List ℕ) (at there : ℕ) → IsBadRecord file at
        → IsBadRecord file there → at ≡ there }
    ensures not_bad { (file : List ℕ) (rs : List GetFlowsResponse) (at : ℕ) → Recorded file rs
        → IsBadRecord file at → ⊥ }
{}

/// The canonical spellings of a recording's responses are a recording of these responses: so, however
/// its messages are spelled, what is made of it is made of them.
pub fn one_spelling()
    ensures canonical { (file : List ℕ) (rs : List GetFlowsResponse) → IsRecordingOf file rs
        → Recorded (canonical rs) rs }
{}

/// Each event of a recording fits its message: it has a spelling, which reads as the event again.
pub fn events_fit()
    ensures fit { (file : List ℕ) (rs : List GetFlowsResponse) → IsRecordingOf file rs
        → AllByRecursion EventFits (events rs) }
{}
