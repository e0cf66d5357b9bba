//! Messages up to which length are taken: that of their response, spelled anew.
use super::*;

/// A message with a long field. Spelled anew, a verdict of -1 (`10ffffffff0f` in a flow), a nanosecond of
/// -1 (the same in a time) and a source of -1 (`08ffffffff0f` in lost events) take five bytes more.
const LONG: &str = "
    # behind a verdict a name: of 65,531 bytes and anew 65,536, of 65,532, and of 65,536
    message 0a06 10ffffffff0f, c23e: 65518 letters | a flow, end
    message 0a06 10ffffffff0f, c23e: 65519 letters | bad at 0
    message 0a06 10ffffffff0f, c23e: 65523 letters | bad at 0
    # a field that is not known
    message 0a06 10ffffffff0f, 22: 65519 letters | a flow, end
    message 0a06 10ffffffff0f, 22: 65520 letters | bad at 0
    # another event, without the flow before it: a status, and lost events of fields that are not
    # known, each of five letters; it is bad only where the response anew is too long
    message 0a06 10ffffffff0f, 12: 65519 letters | a status, end
    message 0a06 10ffffffff0f, 1a: 65520 letters | lost 0, end
    message 0a06 10ffffffff0f, 1a: 65519 letters | bad at 0
    message ca3e06 10ffffffff0f, 12: 65518 letters | a status, end
    message ca3e06 10ffffffff0f, 12: 65519 letters | bad at 0
    message ca3e06 10ffffffff0f, 1a: 65515 letters | lost 0, end
    message ca3e06 10ffffffff0f, 1a: 65520 letters | bad at 0
    # behind two numbers that grow by 5 bytes each: of 65,526 bytes and anew 65,536
    message 0a0e 0a06 10ffffffff0f 10ffffffff0f, c23e: 65505 letters | a flow, end
    message 0a0e 0a06 10ffffffff0f 10ffffffff0f, c23e: 65506 letters | bad at 0
    # behind the response's own time, with no flow
    message ca3e06 10ffffffff0f, c23e: 65517 letters | nothing, end
    message ca3e06 10ffffffff0f, c23e: 65518 letters | bad at 0
    message ca3e06 10ffffffff0f, 22: 65518 letters | nothing, end
    message ca3e06 10ffffffff0f, 22: 65519 letters | bad at 0
    # with nothing that grows, of 65,536 bytes
    message 0a00, 22: 65530 letters | a flow, end
    message 2005, c23e: 65529 letters | nothing, end
    # long, and far from the end
    message 0a06 10ffffffff0f, c23e: 17000 letters | a flow, end
    message 0a06 10ffffffff0f, 22: 17000 letters | a flow, end

    # within an event: a uuid, a field of a flow, and one of lost events, without a time and with one
    message 10ffffffff0f, 9202: 65516 letters, all in 0a | 65516 letters, end
    message 10ffffffff0f, 9202: 65517 letters, all in 0a | bad at 0
    message 10ffffffff0f, 3a: 65517 letters, all in 0a | a flow, end
    message 10ffffffff0f, 3a: 65518 letters, all in 0a | bad at 0
    message 08ffffffff0f, 22: 65517 letters, all in 1a | lost 0, end
    message 08ffffffff0f, 22: 65518 letters, all in 1a | bad at 0
    message 08ffffffff0f, 22: 65512 letters, all in 1a, ca3e020801 | lost 0, end
    message 08ffffffff0f, 22: 65513 letters, all in 1a, ca3e020801 | bad at 0
";

#[test]
fn a_response_anew_has_at_most_65536_bytes(rt: HostRuntime) -> Result<(), Fail> {
    all_given(&rt, rt.alloc(), LONG)
}
