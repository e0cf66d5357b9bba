//! Whether a response fits a frame.
ghost use Rattle.std.specs.Prelude.{◌≡◌, ◌≤◌, ◌↔◌, length, true, IfOk};
ghost use Rattle.hb_flow.specs.Messages.{response_bytes};
ghost use Rattle.hb_frame.specs.Frames.{longest_body};

use hb_flow::{GetFlowsResponse, ResponseTypes};
use hb_frame::BODY;
use hb_wire::NoMemory;

/// The length up to which a text, a node's status, or the bytes of fields that are not known, are small:
/// a response that has no longer ones fits a frame, whatever its other fields are.
const SMALL: usize = 16_000;

/// Whether the response, spelled anew, fits a frame. It is spelled only where it is not small.
pub(crate) fn fits_frame(
    response: &GetFlowsResponse,
    scratch: &mut Vec<u8>,
) -> Result<bool, NoMemory>
    ensures { IfOk result
        (λ fits. (fits ≡ true) ↔ (length (response_bytes response.now) ≤ longest_body)) }
{
    if is_small(response) {
        return Ok(true);
    }
    scratch.clear();
    response.write(scratch)?;
    Ok(scratch.len() <= BODY)
}

/// Whether all that can be long in a response is small. Where it says no in vain, time alone is lost.
fn is_small(response: &GetFlowsResponse) -> bool
    ensures { result ≡ true → length (response_bytes response.now) ≤ longest_body }
{
    if response.node_name.as_str().len() > SMALL || response.unknown.as_slice().len() > SMALL {
        return false;
    }
    match &response.response_types {
        Some(ResponseTypes::Flow(flow)) => {
            flow.uuid.as_str().len() <= SMALL && flow.unknown.as_slice().len() <= SMALL
        }
        Some(ResponseTypes::NodeStatus(status)) => status.as_slice().len() <= SMALL,
        Some(ResponseTypes::LostEvents(event)) => event.unknown.as_slice().len() <= SMALL,
        None => true,
    }
}
