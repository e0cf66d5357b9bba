//! The laws of the messages' definitions.
ghost use Rattle.std.specs.Prelude.{◌≡◌, ◌<◌, ◌≤◌, ◌^◌, ℕ, List, ◌++◌, Some, None, length};
ghost use Rattle.std.specs.List.{flat_map, AllByRecursion};
ghost use Rattle.hb_wire.specs.Varint.{AreBytes};
ghost use Rattle.hb_wire.specs.Field.{SpellsField};
ghost use Rattle.hb_flow.specs.Fields.{Part, StartsNoField, parts};
ghost use Rattle.hb_flow.specs.declared.event.Event.{Event};
ghost use Rattle.hb_flow.specs.declared.lost_event.LostEvent.{LostEvent};
ghost use Rattle.hb_flow.specs.declared.response.GetFlowsResponse.{GetFlowsResponse};
ghost use Rattle.hb_flow.specs.Faults.{response_fault, lost_event_fault};
ghost use Rattle.hb_flow.specs.AllFaults.{HasFault, HasLostEventFault, place_of};
ghost use Rattle.hb_schema.specs.declared.fault.DecodeFault.{DecodeFault};
ghost use Rattle.hb_flow.specs.Messages.{ResponseFits, response_bytes, read_response};
ghost use Rattle.hb_flow.specs.Messages.{LostEventFits, lost_event_bytes, read_lost_event};
ghost use Rattle.hb_flow.specs.Messages.{EventFits, record_bytes, event_in};

/// What is read of bytes that have no fault has a spelling.
pub fn read_fits()
    ensures fits { (bytes : List ℕ) → AreBytes bytes → response_fault bytes ≡ None
        → ResponseFits (read_response bytes) }
    ensures lost_fits { (bytes : List ℕ) → AreBytes bytes → lost_event_fault bytes ≡ None
        → LostEventFits (read_lost_event bytes) }
{}

/// What was written has no fault, and reads as the answer or the lost events that were written,
/// where its length is a number of 64 bits.
pub fn written_is_read()
    ensures no_fault { (r : GetFlowsResponse) → ResponseFits r → length (response_bytes r) < 2 ^ 64
        → response_fault (response_bytes r) ≡ None }
    ensures reads { (r : GetFlowsResponse) → ResponseFits r → length (response_bytes r) < 2 ^ 64
        → read_response (response_bytes r) ≡ r }
    ensures lost_no_fault { (e : LostEvent) → LostEventFits e → length (lost_event_bytes e) < 2 ^ 64
        → lost_event_fault (lost_event_bytes e) ≡ None }
    ensures lost_reads { (e : LostEvent) → LostEventFits e → length (lost_event_bytes e) < 2 ^ 64
        → read_lost_event (lost_event_bytes e) ≡ e }
{}

/// The record of an event has no fault, and holds the event, where its length is a number of 64
/// bits.
pub fn record_is_read()
    ensures no_fault { (e : Event) → EventFits e → length (record_bytes e) < 2 ^ 64
        → response_fault (record_bytes e) ≡ None }
    ensures reads { (e : Event) → EventFits e → length (record_bytes e) < 2 ^ 64
        → event_in (read_response (record_bytes e)) ≡ Some e }
{}

/// Bytes that spell fields one after another, each in whatever spelling, divide into these fields.
/// Of any bytes each part is spelled by its own bytes, and all of these, one after another, are the
/// bytes up to a rest that starts no field.
pub fn spelled_fields()
    ensures divide { (ps : List Part) → AllByRecursion (λ p. SpellsField p.raw p.field) ps
        → parts (flat_map (λ p. p.raw) ps) ≡ ps }
    ensures spelled { (bytes : List ℕ) → AreBytes bytes
        → AllByRecursion (λ p. SpellsField p.raw p.field) (parts bytes) }
    ensures rest { (bytes : List ℕ) → (rest : List ℕ) × StartsNoField rest
        × (bytes ≡ flat_map (λ p. p.raw) (parts bytes) ++ rest) }
{}

/// Of all the faults that the bytes of an answer, or of lost events, have, the one that is told has
/// the least place; where none is told there is none.
pub fn least_fault()
    ensures none { (bytes : List ℕ) (fault : DecodeFault) → response_fault bytes ≡ None
        → HasFault bytes fault → ⊥ }
    ensures has { (bytes : List ℕ) (fault : DecodeFault) → response_fault bytes ≡ Some fault
        → HasFault bytes fault }
    ensures least { (bytes : List ℕ) (fault other : DecodeFault)
        → response_fault bytes ≡ Some fault → HasFault bytes other
        → place_of fault ≤ place_of other }
    ensures lost_none { (bytes : List ℕ) (fault : DecodeFault) → lost_event_fault bytes ≡ None
        → HasLostEventFault bytes fault → ⊥ }
    ensures lost_has { (bytes : List ℕ) (fault : DecodeFault) → lost_event_fault bytes ≡ Some fault
        → HasLostEventFault bytes fault }
    ensures lost_least { (bytes : List ℕ) (fault other : DecodeFault)
        → lost_event_fault bytes ≡ Some fault → HasLostEventFault bytes other
        → place_of fault ≤ place_of other }
{}
