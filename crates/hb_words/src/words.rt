//! The words of a command line.
ghost use Rattle.std.specs.Prelude.{◌≡◌, ◌↔◌, map, string_bytes, Some, None, Err, IfOk};
ghost use Rattle.hb_words.specs.Words as spec;

use crate::options::{are_options, value};
use crate::values::{asked, capacity_of, is_frames, node_of, slot_of};
use crate::{Job, Observe, WordsFault};
use hb_api::GetFlowsRequest;
use hb_wire::Text;
use std::alloc::Global;

/// The size of a ring, in units of 8 bytes, at most.
const LARGEST_RING: u64 = 1 << 27;

/// The job that the words mean: a command, and what it takes.
///
/// `observe` takes FILE, and then pairs of words in any order, each an option's name and its value,
/// no name twice. FILE and a value may be any words. The options are
/// - `--capacity N`: that of the node's ring, one less than a power of two, from 1 to 65,535; 4,095
///   without it;
/// - `--slot N`: the bytes of a slot of the ring, a multiple of 8 from 64 to 65,024; 8,192 without
///   it. The ring's capacity + 1 slots of slot / 8 + 1 units of 8 bytes are at most 2^27 units;
/// - `--node NAME`: 1 to 63 of the letters `a` to `z`, `0` to `9` and `-`; `localhost` without it;
/// - `--last N` or `--first N`: so many flows, from 1 to 2^64 - 1; all without them;
/// - `--output frames`, which must stand.
///
/// N is written in decimal digits alone. Other words mean no job, and are `BadWords` whatever memory
/// there is.
pub fn read_words(alloc: Global, words: &[String]) -> Result<Job, WordsFault>
    ensures ok { IfOk result (λ job. spec.job (map string_bytes words.now) ≡ Some job) }
    ensures bad_words { (result ≡ Err WordsFault.BadWords)
        ↔ (spec.job (map string_bytes words.now) ≡ None) }
{
    match words {
        [command, rest @ ..] if command.as_str() == "observe" => {
            Ok(Job::Observe(read_observe(alloc, rest)?))
        }
        _ => Err(WordsFault::BadWords),
    }
}

/// What the words behind `observe` mean.
fn read_observe(alloc: Global, words: &[String]) -> Result<Observe, WordsFault>
    ensures ok { IfOk result (λ o. spec.observe (map string_bytes words.now) ≡ Some o) }
    ensures bad_words { (result ≡ Err WordsFault.BadWords)
        ↔ (spec.observe (map string_bytes words.now) ≡ None) }
{
    match words {
        [file, options @ ..] if are_options(options) && is_frames(value(options, "--output")) => {
            observe_with(alloc, file.as_str(), options)
        }
        _ => Err(WordsFault::BadWords),
    }
}

/// What FILE with these options means.
fn observe_with(alloc: Global, file: &str, options: &[String]) -> Result<Observe, WordsFault>
    ensures ok { IfOk result (λ o. spec.observe_with file.now (map string_bytes options.now)
        ≡ Some o) }
    ensures bad_words { (result ≡ Err WordsFault.BadWords)
        ↔ (spec.observe_with file.now (map string_bytes options.now) ≡ None) }
{
    let (Some(capacity), Some(slot), Some(node), Some((number, first))) = (
        capacity_of(value(options, "--capacity")),
        slot_of(value(options, "--slot")),
        node_of(value(options, "--node")),
        asked(value(options, "--last"), value(options, "--first")),
    ) else {
        return Err(WordsFault::BadWords);
    };
    if (capacity + 1) * (slot as u64 / 8 + 1) > LARGEST_RING {
        return Err(WordsFault::BadWords);
    }
    let mut request = GetFlowsRequest::new(alloc)?;
    request.number = number;
    request.first = first;
    Ok(Observe {
        file: Text::of(alloc, file)?,
        capacity,
        slot,
        node: Text::of(alloc, node)?,
        request,
    })
}
