//! The laws of the requests' definitions.
ghost use Rattle.std.specs.Prelude.{◌≡◌, ◌<◌, ◌≤◌, ◌^◌, ℕ, List, Some, None, length};
ghost use Rattle.hb_wire.specs.Varint.{AreBytes};
ghost use Rattle.hb_flow.specs.Fields.{parts};
ghost use Rattle.hb_flow.specs.AllFaults.{place_of};
ghost use Rattle.hb_schema.specs.declared.fault.DecodeFault.{DecodeFault};
ghost use Rattle.hb_api.specs.declared.request.GetFlowsRequest.{GetFlowsRequest};
ghost use Rattle.hb_api.specs.Faults.{request_fault, HasFault};
ghost use Rattle.hb_api.specs.Requests.{RequestFits, request_bytes, read_request, have_mask, is_masked};

/// What is read of bytes that have no fault has a spelling.
pub fn read_fits()
    ensures fits { (bytes : List ℕ) → AreBytes bytes → request_fault bytes ≡ None
        → RequestFits (read_request bytes) }
{}

/// What was written has no fault, and reads as the request that was written, where its length is a
/// number of 64 bits.
pub fn written_is_read()
    ensures no_fault { (r : GetFlowsRequest) → RequestFits r → length (request_bytes r) < 2 ^ 64
        → request_fault (request_bytes r) ≡ None }
    ensures reads { (r : GetFlowsRequest) → RequestFits r → length (request_bytes r) < 2 ^ 64
        → read_request (request_bytes r) ≡ r }
{}

/// A request that was read has a field mask where its bytes have one.
pub fn mask_is_kept()
    ensures kept { (bytes : List ℕ) → AreBytes bytes
        → is_masked (read_request bytes) ≡ have_mask (parts bytes) }
{}

/// Of all the faults that the bytes of a request have, the one that is told has the least place;
/// where none is told there is none.
pub fn least_fault()
    ensures none { (bytes : List ℕ) (fault : DecodeFault) → request_fault bytes ≡ None
        → HasFault bytes fault → ⊥ }
    ensures has { (bytes : List ℕ) (fault : DecodeFault) → request_fault bytes ≡ Some fault
        → HasFault bytes fault }
    ensures least { (bytes : List ℕ) (fault other : DecodeFault)
        → request_fault bytes ≡ Some fault → HasFault bytes other
        → place_of fault ≤ place_of other }
{}
