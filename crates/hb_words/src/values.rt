//! What the value of each option says, or what its absence says.
ghost use Rattle.std.specs.Prelude.{◌≡◌, nat_lt, option_copied, option_map};
ghost use Rattle.hb_words.specs.Values as spec;

use hb_api::LONGEST_NAME;
use hb_look::LONGEST_RECORD;

/// The capacity of a ring that was given none.
const DEFAULT_CAPACITY: u64 = 4095;

/// The largest capacity of a ring.
const LARGEST_CAPACITY: u64 = 65_535;

/// The bytes of a slot that were not given.
const DEFAULT_SLOT: usize = 8192;

/// The name of a node that was given none.
const DEFAULT_NODE: &str = "localhost";

/// The number below 2^64 that one or more decimal digits write.
fn number(text: &str) -> Option<u64>
    ensures { result ≡ spec.number text.now }
{
    if text.starts_with('+') {
        return None;
    }
    text.parse::<u64>().ok()
}

/// The capacity of the ring.
pub(crate) fn capacity_of(text: Option<&str>) -> Option<u64>
    ensures { result ≡ spec.capacity (option_copied text.entry) }
{
    let Some(text) = text else {
        return Some(DEFAULT_CAPACITY);
    };
    match number(text) {
        Some(n) if 1 <= n && n <= LARGEST_CAPACITY && (n + 1).is_power_of_two() => Some(n),
        _ => None,
    }
}

/// The bytes of a slot of the ring.
pub(crate) fn slot_of(text: Option<&str>) -> Option<usize>
    ensures { result ≡ spec.slot (option_copied text.entry) }
{
    let Some(text) = text else {
        return Some(DEFAULT_SLOT);
    };
    match number(text) {
        Some(n) if n % 8 == 0 && 64 <= n && n <= LONGEST_RECORD as u64 => Some(n as usize),
        _ => None,
    }
}

/// The name of the node.
pub(crate) fn node_of(text: Option<&str>) -> Option<&str>
    ensures { option_copied result ≡ spec.node (option_copied text.entry) }
{
    match text {
        None => Some(DEFAULT_NODE),
        Some(text) if is_name(text) => Some(text),
        _ => None,
    }
}

/// Whether a node may have this name.
fn is_name(text: &str) -> bool
    ensures { result ≡ spec.is_name text.now }
{
    if text.is_empty() || text.len() > LONGEST_NAME {
        return false;
    }
    text.as_bytes().iter().all(|c| is_name_letter(*c))
}

/// Whether the letter may stand in a node's name.
fn is_name_letter(c: u8) -> bool
    ensures { result ≡ spec.is_name_letter c }
{
    c.is_ascii_lowercase() || c.is_ascii_digit() || c == b'-'
}

/// How many flows are asked for by `--last` and by `--first`, or 0 for all, and whether these are
/// the first ones.
pub(crate) fn asked(last: Option<&str>, first: Option<&str>) -> Option<(u64, bool)>
    ensures { option_map (λ a. spec.flows a.1 a.0) result
        ≡ spec.request (option_copied last.entry) (option_copied first.entry) }
{
    match (last, first) {
        (None, None) => Some((0, false)),
        (Some(text), None) => Some((count(text)?, false)),
        (None, Some(text)) => Some((count(text)?, true)),
        (Some(_), Some(_)) => None,
    }
}

/// A number of flows, from 1 on.
fn count(text: &str) -> Option<u64>
    ensures { result ≡ spec.number_that (nat_lt 0) text.now }
{
    match number(text) {
        Some(n) if 0 < n => Some(n),
        _ => None,
    }
}

/// Whether the output is to be frames.
pub(crate) fn is_frames(form: Option<&str>) -> bool
    ensures { result ≡ spec.is_frames (option_copied form.entry) }
{
    match form {
        Some(form) => form == "frames",
        None => false,
    }
}
