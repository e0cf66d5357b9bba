//! The requests that are refused.
ghost use Rattle.std.specs.Prelude.{◌≡◌, ◌⊎◌, None, IfOk, IfErr};
ghost use Rattle.hb_session.specs.Refusals.{refusal, IsRefusal};

use crate::OpenFault;
use hb_api::GetFlowsRequest;
use hb_wire::Text;
use std::alloc::Global;

/// gRPC's `INVALID_ARGUMENT` and `UNIMPLEMENTED`.
const INVALID_ARGUMENT: u32 = 3;

const UNIMPLEMENTED: u32 = 12;

/// Fails with the status of the first check that refuses a request.
pub(crate) fn check(alloc: Global, request: &GetFlowsRequest) -> Result<(), OpenFault>
    ensures passes { IfOk result (λ _. refusal request.now ≡ None) }
    ensures refused { IfErr result (IsRefusal request.now) }
{
    if request.first && request.follow {
        return Err(refused(alloc, INVALID_ARGUMENT, "first with follow"));
    }
    if request.is_masked() {
        return Err(refused(alloc, UNIMPLEMENTED, "field mask"));
    }
    Ok(())
}

/// The fault of a request that is refused.
fn refused(alloc: Global, code: u32, text: &str) -> OpenFault
    ensures { (result ≡ OpenFault.NoMemory) ⊎ (result ≡ OpenFault.BadRequest code text.now) }
{
    match Text::of(alloc, text) {
        Ok(text) => OpenFault::BadRequest { code, text },
        Err(_) => OpenFault::NoMemory,
    }
}
