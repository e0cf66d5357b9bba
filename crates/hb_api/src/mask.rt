//! The field mask of a request, which is not read.
ghost use Rattle.std.specs.Prelude.{◌≡◌, ◌==◌, None, is_some, if◌then◌else◌};
ghost use Rattle.hb_wire.specs.Field.{piece_of};
ghost use Rattle.hb_flow.specs.Fields.{body_in, parts};
ghost use Rattle.hb_api.specs.Requests.{have_mask};

use hb_wire::{Field, next_field};

/// Whether a field is a mask.
fn is_mask(field: Field<'_>) -> bool
    ensures { result ≡ is_some (if (piece_of field.entry).number == 10
        then body_in (piece_of field.entry).content else None) }
{
    matches!(field, Field::Body { number: 10, .. })
}

/// Whether there is a mask among the fields of these bytes, up to a place at which none starts.
pub(crate) fn have_mask(bytes: &[u8]) -> bool
    ensures { result ≡ have_mask (parts bytes.now) }
{
    let mut at = 0;
    while at < bytes.len() {
        let (field, end) = match next_field(bytes, at) {
            Ok(found) => found,
            Err(_) => return false,
        };
        if is_mask(field) {
            return true;
        }
        at = end;
    }
    false
}
