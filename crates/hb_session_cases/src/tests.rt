//! Sessions over a ring and a link in memory, as tables of text that were worked out by hand.
mod list_place;
mod node;
mod place;
mod ring_place;
mod seat;
mod words;

use hb_api::GetFlowsRequest;
use hb_cases::{Row, bytes, digits, rows};
use hb_session::{NodeSession, OpenFault};
use list_place::ListPlace;
use node::Node;
use place::Place;
use ring_place::RingPlace;
use seat::replied;
use std::alloc::Global;
use std::process::Abort;
use std::test::*;
use words::frames_of;

/// Windows that are read while nothing is written: the ring's capacity, what was put into it, what
/// is asked, what is answered, and how many records were given, skipped and lost.
const WINDOWS: &str = "
# How many, and of which times.
7 | 0 1 2 3 4 | all | 0 1 2 3 4 ok | 5 0 0
7 | 0 1 2 3 4 | first 0 | 0 1 2 3 4 ok | 5 0 0
7 | 0 1 2 3 4 | last 2 | 3 4 ok | 0 0 0
7 | 0 1 2 3 4 | last 9 | 0 1 2 3 4 ok | 0 0 0
7 | 0 1 2 3 4 | first 2 | 0 1 ok | 2 0 0
7 | 0 1 2 3 4 | first 9 | 0 1 2 3 4 ok | 5 0 0
7 | 0 1 2 3 4 | since 3, until 3 | 2 ok | 1 4 0
7 | 0 1 2 3 4 | since 3, until 2 | ok | 0 5 0
7 | 0 1 2 3 4 | since 3.000000001 | 3 4 ok | 2 3 0
7 | 0 1 2 3 4 | until 1.999999999 | 0 ok | 1 4 0
7 | 0 1 2 3 4 | first 1, since 3 | 2 ok | 1 2 0
7 | 0 1 2 3 4 | last 1, until 3 | 2 ok | 0 0 0
7 | 0 1 2 3 4 | last 2, since 5 | 4 ok | 0 0 0

# What a ring has of them.
1 | 0 1 2 3 4 | all | 4 ok | 1 0 0
1 | 0 1 2 3 4 | last 2 | 4 ok | 0 0 0
1 | 0 1 2 3 4 | first 2 | 4 ok | 1 0 0
3 | 0 1 2 3 4 | all | 2 3 4 ok | 3 0 0
3 | 0 1 2 3 4 | last 2 | 3 4 ok | 0 0 0
3 | 0 1 2 3 4 | last 5 | 2 3 4 ok | 0 0 0
3 | 0 1 2 3 4 | first 2 | 2 3 ok | 2 0 0

# Lost events are no flows: the last flows come with those between and behind them, and the first
# with those between and before them.
7 | perf5@2 0 ring4 1 2 perf9@3 | all | perf5@2 0 ring4 1 2 perf9@3 ok | 6 0 0
7 | perf5@2 0 ring4 1 2 perf9@3 | last 1 | 2 perf9@3 ok | 0 0 0
7 | perf5@2 0 ring4 1 2 perf9@3 | last 2 | 1 2 perf9@3 ok | 0 0 0
7 | perf5@2 0 ring4 1 2 perf9@3 | last 3 | 0 ring4 1 2 perf9@3 ok | 0 0 0
7 | perf5@2 0 ring4 1 2 perf9@3 | last 4 | perf5@2 0 ring4 1 2 perf9@3 ok | 0 0 0
7 | perf5@2 0 ring4 1 2 perf9@3 | first 1 | perf5@2 0 ok | 2 0 0
7 | perf5@2 0 ring4 1 2 perf9@3 | first 2 | perf5@2 0 ring4 1 ok | 4 0 0
7 | perf5@2 0 ring4 1 2 perf9@3 | first 3 | perf5@2 0 ring4 1 2 ok | 5 0 0
7 | perf5@2 0 ring4 1 2 perf9@3 | first 4 | perf5@2 0 ring4 1 2 perf9@3 ok | 6 0 0
1 | perf5@2 0 ring4 1 2 perf9@3 | all | perf9@3 ok | 1 0 0
1 | perf5@2 0 ring4 1 2 perf9@3 | last 1 | perf9@3 ok | 0 0 0
1 | perf5@2 0 ring4 1 2 perf9@3 | first 1 | perf9@3 ok | 1 0 0
3 | perf5@2 0 ring4 1 2 perf9@3 | all | 1 2 perf9@3 ok | 3 0 0
3 | perf5@2 0 ring4 1 2 perf9@3 | last 1 | 2 perf9@3 ok | 0 0 0
3 | perf5@2 0 ring4 1 2 perf9@3 | last 3 | 1 2 perf9@3 ok | 0 0 0
3 | perf5@2 0 ring4 1 2 perf9@3 | first 1 | 1 ok | 1 0 0
3 | perf5@2 0 ring4 1 2 perf9@3 | first 3 | 1 2 perf9@3 ok | 3 0 0

# Records that hold no event are skipped, and lost events have no bounds.
7 | 0 name cut letters status perf9@5 1 | all | 0 perf9@5 1 ok | 3 4 0
7 | 0 name cut letters status perf9@5 1 | last 1 | 1 ok | 0 0 0
7 | 0 name cut letters status perf9@5 1 | last 2 | 0 perf9@5 1 ok | 0 0 0
7 | 0 name cut letters status perf9@5 1 | first 1 | 0 ok | 1 0 0
7 | 0 name cut letters status perf9@5 1 | first 2 | 0 perf9@5 1 ok | 3 4 0
7 | 0 name cut letters status perf9@5 1 | since 6 | perf9@5 ok | 1 6 0
7 | 0 name cut letters status perf9@5 1 | until 1 | 0 perf9@5 ok | 2 5 0
7 | 0 name cut letters status perf9@5 1 | first 1, since 2 | perf9@5 1 ok | 2 5 0
7 | 0 name cut letters status perf9@5 1 | last 1, until 1 | 0 perf9@5 ok | 0 0 0

# A flow without a time counts as stamped at 0.
7 | untimed | all | untimed ok | 1 0 0
7 | untimed | since 0, until 0 | untimed ok | 1 0 0
7 | untimed | since 0.000000001 | ok | 0 1 0
7 | untimed | until -1 | ok | 0 1 0
";

/// What becomes of a session: the ring's capacity, what was put into it before the session was
/// opened, what is asked, the steps (`Node::makes`), what the link has taken then, and how many
/// records were given, skipped and lost.
const SESSIONS: &str = "
# Three looks and three writes. What follows a window is not read.
3 | 0 1 2 3 4 | all | done in 6 | 2 3 4 ok | 3 0 0
3 | 0 1 2 3 4 | all | done in 6; sent 86; put 9*3 | 2 3 4 ok | 3 0 0

# An empty ring: the status alone.
7 | | all | done in 1 | ok | 0 0 0
7 | | first 1 | done in 1 | ok | 0 0 0
7 | | last 1 | done in 1 | ok | 0 0 0

# A session that is turned to its end at once.
3 | 0 1 2 3 4 | all | finish done; finish done | 2 3 4 ok | 3 0 0
3 | 0 1 2 3 4 | all | hold; finish idle; sent 0; free; finish done | 2 3 4 ok | 3 0 0
3 | 0 1 2 3 4 | all | fail 6; finish fault; finish fault; sent 27 | 2 | 2 0 0
3 | 0 1 2 3 4 | all | more; client 03 00000000; finish cancelled; finish cancelled | | 1 0 0
3 | 0 1 2 3 4 | all | client 03 00; end; finish Cut { at: 0 }; finish Cut { at: 0 } | | 1 0 0

# A link that takes a byte a write: three looks, three flows of 27 bytes, and the status.
3 | 0 1 2 3 4 | all | piece 1; done in 89 | 2 3 4 ok | 3 0 0

# A link that takes 20 bytes a write, and is held.
3 | 0 1 2 3 4 | all | piece 20; more; hold; idle 3; sent 0; looked 1; free; more; \
    hold; idle 3; sent 20; looked 1; free; more 2; hold; idle 3; sent 27; looked 2; free; more; \
    done | 2 3 4 ok | 3 0 0

# Each turn reads once, until the client's end was read. Reads and writes are numbered together: a
# look comes with one call, and a write with two.
3 | 0 1 2 3 4 | all | done in 6; silent 6 | 2 3 4 ok | 3 0 0
3 | 0 1 2 3 4 | all | more 3; end; done in 3; silent 3 | 2 3 4 ok | 3 0 0
3 | 0 1 2 3 4 | all | end; done in 6; silent 0 | 2 3 4 ok | 3 0 0
7 | | all | end; done in 1; silent 0 | ok | 0 0 0

# A write fails.
3 | 0 1 2 3 4 | all | fail 3; fault in 2; waiting 27 | | 1 0 0
3 | 0 1 2 3 4 | all | fail 6; fault in 4; waiting 27 | 2 | 2 0 0
3 | 0 1 2 3 4 | all | fail 9; fault in 6; waiting 32 | 2 3 | 3 0 0
3 | 0 1 2 3 4 | all | end; fail 2; fault in 2 | | 1 0 0
3 | 0 1 2 3 4 | all | end; fail 3; fault in 4 | 2 | 2 0 0
3 | 0 1 2 3 4 | all | end; fail 4; fault in 6 | 2 3 | 3 0 0
3 | 0 1 2 3 4 | all | end; fail 5; done in 6 | 2 3 4 ok | 3 0 0

# A read fails: the turn makes no look, and no write.
3 | 0 1 2 3 4 | all | fail 1; fault in 1; looked 0 | | 0 0 0
3 | 0 1 2 3 4 | all | fail 2; fault in 2; looked 1; waiting 27 | | 1 0 0
3 | 0 1 2 3 4 | all | fail 4; fault in 3; looked 1; waiting 0 | 2 | 1 0 0
3 | 0 1 2 3 4 | all | fail 5; fault in 4; looked 2; waiting 27 | 2 | 2 0 0
3 | 0 1 2 3 4 | all | end; fail 1; fault in 1; looked 0 | | 0 0 0
3 | 0 1 2 3 4 | all | fed 03 00000000; fail 1; fault in 1 | | 0 0 0
7 | | all | fail 1; fault in 1; waiting 5 | | 0 0 0
";

/// What becomes of a session whose window is overwritten, told as in `SESSIONS`.
const OVERWRITTEN: &str = "
# The whole window.
3 | 0 1 2 | all | put 9*6; at 2; more; sent 0; at 0; done in 1 | ring3@2 ok | 0 0 3
3 | 0 1 2 | all | put 9*6; more; sent 0; done in 1 | ring3@0 ok | 0 0 3

# Before each look, and before each write.
3 | 0 1 2 | all | end; at 2; put 3 4 5 6 7 8; done in 2 | ring3@2 ok | 0 0 3
3 | 0 1 2 | all | end; more; at 2; put 3 4 5 6 7 8; done | 0 ring2@2 ok | 1 0 2
3 | 0 1 2 | all | end; more 2; at 2; put 3 4 5 6 7 8; done | 0 ring2@2 ok | 1 0 2
3 | 0 1 2 | all | end; more 3; at 2; put 3 4 5 6 7 8; done | 0 1 ring1@2 ok | 2 0 1
3 | 0 1 2 | all | end; more 4; at 2; put 3 4 5 6 7 8; done | 0 1 ring1@2 ok | 2 0 1
3 | 0 1 2 | all | end; more 5; at 2; put 3 4 5 6 7 8; done in 1 | 0 1 2 ok | 3 0 0
3 | 0 1 2 | all | end; done in 6; at 2; put 3 4 5 6 7 8; done | 0 1 2 ok | 3 0 0

# Two turns give a flow. The ring has its last eight records, and the window the first seven.
7 | 0 1 2 3 4 5 6 | all | at 1; put 9*3; at 3; done | ring2@3 2 3 4 5 6 ok | 5 0 2
7 | 0 1 2 3 4 5 6 | all | at 1; more 2; put 9*3; at 3; done | 0 ring1@3 2 3 4 5 6 ok | 6 0 1
7 | 0 1 2 3 4 5 6 | all | at 1; more 4; put 9*5; at 3; done | 0 1 ring2@3 4 5 6 ok | 5 0 2
7 | 0 1 2 3 4 5 6 | all | at 1; more 6; put 9*7; at 3; done | 0 1 2 ring3@3 6 ok | 4 0 3
# Up to the window's end, and past it.
7 | 0 1 2 3 4 5 6 | all | at 1; more 2; put 9*8; at 3; done | 0 ring6@3 ok | 1 0 6
7 | 0 1 2 3 4 5 6 | all | at 1; more 6; put 9*12; at 3; done | 0 1 2 ring4@3 ok | 3 0 4
# What is overwritten was read.
7 | 0 1 2 3 4 5 6 | all | at 1; more 4; put 9*3; at 3; done | 0 1 2 3 4 5 6 ok | 7 0 0
# A loss is no flow, and has no bounds.
7 | 0 1 2 3 4 5 6 | first 2 | at 1; more 2; put 9*3; at 3; done | 0 ring1@3 2 ok | 2 0 1
7 | 0 1 2 3 4 5 6 | since 7, until 7 | at 1; more; put 9*3; at 3; done | ring1@3 6 ok | 1 5 1

# A stretch that grows is told once. Flows 0 and 1 are overwritten, and then 2 and 3: the earlier
# moment that is told then counts as no less. Flow 4 ends the stretch, and another goes up to the
# end. Its last moment is told.
7 | 0 1 2 3 4 5 6 | all | put 9*3; at 5; more; put 9*2; at 2; more; \
    counts 0 0 4; sent 0; looked 2; at 6; more 2; put 9*2; at 7; more; put 9*7; at 8; done in 2 \
    | ring4@5 4 ring2@8 ok | 1 0 6

# One turn looks at a flow. The ring has its last four records, and the window is flows 1 to 3.
3 | 0 1 2 3 | last 3 | at 1; more 2; put 9*2; at 3; done | ring1@3 2 3 ok | 0 0 0
3 | 0 1 2 3 | last 3 | at 1; more; put 9*3; at 3; done | ring2@3 3 ok | 0 0 0
3 | 0 1 2 3 | last 3 | at 1; put 9*6; at 3; done | ring3@3 ok | 0 0 0
3 | 0 1 2 3 | last 3 | at 1; more 2; put 9; at 3; done | 1 2 3 ok | 0 0 0
3 | 0 1 2 3 | last 3 | more 2; at 2; put 4 5; done in 2 | ring1@2 2 3 ok | 0 0 0
# Enough was read.
3 | 0 1 2 3 | last 2 | at 1; more 2; put 9*6; at 3; done | 2 3 ok | 0 0 0
# A loss is no flow, and has no bounds.
3 | 0 1 2 3 | last 1, since 1, until 1 | at 1; more 2; put 9*2; at 3; done | ring1@3 ok | 0 0 0
";

/// What becomes of a session that follows, told as in `SESSIONS`.
const FOLLOWING: &str = "
# Nothing of the window, and all that comes.
3 | 0 1 | follow | waits; at 2; put 2 3 4 5; more 8; waits | 2 3 4 5 | 4 0 0
3 | 0 1 | follow | put 2; more 2; waits | 2 | 1 0 0
3 | | follow | waits 2; put 0; more 2; waits 2 | 0 | 1 0 0
7 | 0 1 | follow | waits 99; looked 99; silent 99; put 2; more 2; waits 99; looked 199 | 2 | 1 0 0
7 | 0 1 | follow | put name 2 cut perf9@5; more 6; waits | 2 perf9@5 | 2 2 0

# What is overwritten goes past the window's end. It is told before the next record, and not before
# there is one.
3 | 0 1 | follow | waits; at 2; put 2 3 4 5 6 7 8; more 9; waits | ring3@2 5 6 7 8 | 4 0 3
3 | 0 1 | follow | at 2; put 2 3 4 5 6 7 8; more; waiting 0; counts 0 0 3; at 3; put 9*3; more; \
    waiting 0; counts 0 0 6; more; waiting 48; more 7; waits | ring6@3 8 9 9 9 | 4 0 6
3 | 0 1 | follow | at 3; put 2 3 4 5 6 7 8; more; at 1; put 9*3; more 9; waits \
    | ring6@3 8 9 9 9 | 4 0 6
3 | 0 1 | follow | put 2 3 4 5 6 7 8; more; client 03 00000000; cancelled in 1 | | 0 0 3
3 | 0 1 2 3 | since 0 | at 1; more 2; put 4 5 6 7 8; at 3; done in 2 | 1 ring2@3 ok | 1 0 2
3 | 0 1 2 3 | follow, since 0 | at 1; more 2; put 4 5 6 7 8; at 3; more 9; waits \
    | 1 ring3@3 5 6 7 8 | 5 0 3
3 | 0 1 | follow, since 99 | more 2; put 2 3 4 5 6 7 8; at 2; more 6; waits | ring3@2 | 0 6 3

# The window from a moment on, and what comes.
7 | 0 1 2 3 4 | follow, since 4 | more 7; waits; put 2 5; more 3; waits | 3 4 5 | 3 4 0
1 | 0 1 2 3 4 | follow, since 0 | more 2; waits; put 5; more 2; waits | 4 5 | 2 0 0
7 | | follow, since 0 | waits; put 0; more 2; waits | 0 | 1 0 0

# The last flows of the window, and what comes: the window is not read again, and no flow that comes
# is too many.
7 | 0 1 2 3 4 | follow, last 2 | more 3; waits; looked 3; put 5 6; more 4; waits | 3 4 5 6 | 2 0 0
7 | 0 1 2 3 4 | follow, last 9 | more 6; waits; looked 6; put 5; more 2; waits \
    | 0 1 2 3 4 5 | 1 0 0
7 | 0 1 | follow, last 1 | put 2; more 2; sent 27; put 3 4; more 6; waits | 1 2 3 4 | 3 0 0
7 | 0 1 2 | follow, last 2 | piece 1; more 56; waits | 1 2 | 0 0 0
7 | 0 | follow, last 2 | more 2; waits; put 1; more 2; waits | 0 1 | 1 0 0
7 | | follow, last 2 | waits 2; put 0 1 2; more 6; waits | 0 1 2 | 3 0 0
7 | 0 1 | follow, last 2, since 9 | more 2; waits; put 2 9; more 3; waits | 9 | 1 1 0
7 | 0 1 2 3 4 | follow, last 9, since 4 | more 6; waits | 3 4 | 0 0 0
7 | 0 1 2 3 4 | follow, last 1, until 3 | more 4; waits; put 1; more 2; waits; put 3; done in 2 \
    | 2 1 ok | 1 1 0
7 | perf5@2 0 ring4 1 2 perf9@3 | follow, last 1 | more 3; waits; put perf9@5; more 2; waits \
    | 2 perf9@3 perf9@5 | 1 0 0
3 | 0 1 2 3 | follow, last 3 | at 1; more 2; put 4 5; at 3; more 6; waits \
    | ring1@3 2 3 4 5 | 2 0 0
3 | 0 1 2 3 | follow, last 3 | at 1; more 2; put 4 5 6 7 8 9; at 3; more 11; waits \
    | ring1@3 2 3 ring2@3 6 7 8 9 | 4 0 2
3 | 0 1 2 3 | follow, last 3 | put 4 5 6 7 8 9; at 3; more 11; waits \
    | ring3@3 ring2@3 6 7 8 9 | 4 0 2

# The first flow behind the window that is too late ends the reply, and is not given.
3 | 0 1 | follow, since 1, until 3 | more 4; waits 3; put 2 3 4; done in 4 | 0 1 2 ok | 3 1 0
7 | 0 | follow, until 1 | put 4 0 0; done in 2; looked 1 | ok | 0 1 0
7 | 0 | follow, until 3 | waits; put 2*2; more 4; waits; put 3; done in 2 | 2 2 ok | 2 1 0
7 | 0 | follow, until 2.999999999 | put 1 2 3; more 2; done in 2 | 1 ok | 1 1 0
7 | 0 | follow, until 3.000000001 | put 2 3; more 2; done in 2 | 2 ok | 1 1 0
7 | | follow, until -1 | waits; put untimed; done in 2 | ok | 0 1 0
7 | | follow, until 0 | put untimed 0; more 2; done in 2 | untimed ok | 1 1 0
# One that is asked for by no other bound either.
7 | 0 | follow, since 9, until 3 | more; waits; put 1; more; waits; put 4; done in 2 | ok | 0 3 0
# One of the window does not.
7 | 4 0 | follow, since 1, until 3 | more 3; waits; put 1; more 2; waits; put 3; done in 2 \
    | 0 1 ok | 2 2 0
7 | 0 4 | follow, since 1, until 3 | more 3; waits; put 4; done in 2 | 0 ok | 1 2 0
# No lost event does, and no record that holds no event.
7 | | follow, until 3 | put perf9@5 ring4; more 4; waits; put name cut letters status; more 4; \
    waits; put 4; done in 2 | perf9@5 ring4 ok | 2 5 0
# None that is overwritten does; and what is overwritten before it is told.
3 | 0 1 | follow, until 3 | waits; at 2; put 2 3 4 5 6 7 8; more; done in 2 | ring3@2 ok | 0 1 3
3 | 0 1 | follow, until 3 | waits; at 2; put 9*3 0 1 2 2; more 9; waits | ring3@2 0 1 2 2 | 4 0 3

# The client's end, a link that is held, and one that fails.
7 | 0 | follow | end; waits 3; silent 0; put 1; more 2; waits | 1 | 1 0 0
7 | 0 | follow | put 1; more; hold; idle 3; looked 1; free; more; waits | 1 | 1 0 0
7 | 0 | follow | waits; put 1; more; fail 4; fault in 1; waiting 27 | | 1 0 0
7 | 0 | follow | waits 2; fail 3; fault in 1; looked 2 | | 0 0 0
";

/// What becomes of a session whose client is not silent, told as in `SESSIONS`.
const CLIENTS: &str = "
# The client's bytes end behind a frame that was taken, or are none: the reply goes on.
7 | 0 1 2 | all | fed 00 00000000; taken 1; end; done in 6 | 0 1 2 ok | 3 0 0

# A cancel, before the first look, while bytes wait, and while none waits.
7 | 0 1 2 | all | client 03 00000000; cancelled in 1; looked 0; waiting 0 | | 0 0 0
7 | 0 1 2 | all | more; client 03 00000000; cancelled in 1; waiting 27 | | 1 0 0
7 | 0 1 2 | all | more 2; client 03 00000000; cancelled in 1; looked 1; waiting 0 | 0 | 1 0 0
7 | 0 1 2 | all | more; hold; idle 2; client 03 00000000; cancelled in 1; waiting 27 | | 1 0 0
7 | | all | client 03 00000000; cancelled in 1; waiting 5 | | 0 0 0
7 | 0 | follow | waits 2; client 03 00000000; cancelled in 1; looked 2 | | 0 0 0
7 | 0 1 2 | last 9 | more 2; client 03 00000000; cancelled in 1; looked 2; waiting 0 | | 0 0 0
7 | 0 1 2 | all | done in 6; client 03 00000000; done in 1 | 0 1 2 ok | 3 0 0

# Its body does not count. It comes in reads of 4,096 bytes.
7 | 0 1 2 | all | client 03 00000003 \"bye\"; cancelled in 1 | | 0 0 0
7 | 0 1 2 | all | client 03 0000; more; client 0003 \"by\"; more; client \"e\"; cancelled in 1 \
    | 0 | 1 0 0
7 | 0 1 2 | all | client 03 00000ffb 75*4091; cancelled in 1; looked 0 | | 0 0 0
7 | 0 1 2 | all | client 03 00000ffc 75*4092; more; cancelled in 1; looked 1 | | 1 0 0
7 | 0 | follow | client 03 00010000 75*65536; waits 16; cancelled in 1 | | 0 0 0

# What is behind it stays.
7 | 0 1 2 | all | client 03 00000000 ff; cancelled in 1; end; cancelled in 1 | | 0 0 0
7 | 0 1 2 | all | client 03 00000000; cancelled in 1; client ff; cancelled in 1 | | 0 0 0

# What was fed before is heard with what is read.
7 | 0 1 2 | all | fed 03 00000000; cancelled in 1; silent 1 | | 0 0 0
7 | 0 1 2 | all | fed 00 00000000 03 00; taken 1; client 000000; cancelled in 1 | | 0 0 0
7 | 0 1 2 | all | fed 03 00; end; Cut { at: 0 } in 1; looked 0 | | 0 0 0
7 | 0 1 2 | all | fed 00 00000002 1801 03; taken 1; end; Cut { at: 7 } in 1; looked 0 | | 0 0 0

# Another frame, by its place in all that came: a call, and one behind a call and its request.
7 | 0 1 2 | all | client 01 0000001b \"/observer.Observer/GetFlows\"; Extra { at: 0 } in 1 \
    | | 0 0 0
7 | 0 1 2 | all | fed 01 0000001b \"/observer.Observer/GetFlows\" 00 00000000; taken 2; \
    more 2; client 00 00000000; Extra { at: 37 } in 1; waiting 0 | 0 | 1 0 0
7 | 0 1 2 | all | fed 00 00000000; taken 1; more; client 01 0000; more; client 0001; more; \
    client 2f; Extra { at: 5 } in 1; waiting 27 | 0 | 2 0 0
7 | 0 | follow | waits 3; client 02 00000000; Extra { at: 0 } in 1 | | 0 0 0

# A fault, before the first look, while bytes wait, and while none waits.
7 | 0 1 2 | all | client ff; BadKind { at: 0, kind: 255 } in 1; looked 0 | | 0 0 0
7 | 0 1 2 | all | more; client 04; BadKind { at: 0, kind: 4 } in 1; waiting 27 | | 1 0 0
7 | 0 1 2 | all | more 2; client 00 00010001; TooLong { at: 0, length: 65537 } in 1; looked 1 \
    | 0 | 1 0 0
7 | | all | client ff; BadKind { at: 0, kind: 255 } in 1; waiting 5 | | 0 0 0

# An end within a frame, that comes with it or later.
7 | 0 1 2 | all | client 03 0000; end; more; Cut { at: 0 } in 1; waiting 27 | | 1 0 0
7 | 0 1 2 | all | client 03 0000; more 4; end; Cut { at: 0 } in 1; looked 2 | 0 1 | 2 0 0
7 | 0 | follow | client 03 0000; waits 9; end; Cut { at: 0 } in 1; looked 9 | | 0 0 0
";

/// What a client sends in whatever pieces: steps before it, its bytes, a step behind it, and what
/// the session answers.
const INPUTS: &str = r#"
| ff | | BadKind { at: 0, kind: 255 }
| 04 00000000 | | BadKind { at: 0, kind: 4 }
| 00 00010001 | | TooLong { at: 0, length: 65537 }
| 03 ffffffff 00 | | TooLong { at: 0, length: 4294967295 }
| 01 0000001b "/observer.Observer/GetFlows" | | Extra { at: 0 }
| 00 00000000 | | Extra { at: 0 }
| 02 00000002 0805 03 00000000 | | Extra { at: 0 }
| 03 00000000 | | cancelled
| 03 00000002 0a00 | end | cancelled
| 03 00000000 ff | | cancelled
| 03 | end | Cut { at: 0 }
| 00 000000 | end | Cut { at: 0 }
| 03 00000000 00 | end | cancelled
| 01 00000001 | end | Cut { at: 0 }
| 03 00000003 0a0b | end | Cut { at: 0 }

fed 00 00000002 1801; taken 1 | ff | | BadKind { at: 7, kind: 255 }
fed 00 00000002 1801; taken 1 | 00 00010001 | | TooLong { at: 7, length: 65537 }
fed 00 00000002 1801; taken 1 | 00 00000001 08 | | Extra { at: 7 }
fed 00 00000002 1801; taken 1 | 03 00000000 | | cancelled
fed 00 00000002 1801; taken 1 | 03 0000 | end | Cut { at: 7 }
fed 00 00000002 1801 00; taken 1 | 000000 | end | Cut { at: 7 }
fed 00 00000002 1801 00; taken 1 | 00000000 | end | Extra { at: 7 }
"#;

/// Requests, and the status that refuses them, if any. Fields 1, 3 and 9 are `number`, `follow` and
/// `first`, and a mask is a body in field 10.
const REFUSALS: &str = "
- | opens
4801 | opens
1801 | opens
0805 1801 | opens
0805 4801 | opens
1801 4801 | 3 first with follow
0801 1801 4801 | 3 first with follow
4801 0805 1801 | 3 first with follow
4800 1801 | opens
4801 1800 | opens

5200 | 12 field mask
5202 0a00 | 12 field mask
1801 5200 | 12 field mask
4801 5200 | 12 field mask
1801 4801 5200 | 3 first with follow
5200 4801 1801 | 3 first with follow
6200 5200 | 12 field mask
# Other types of field 10, other fields, and a field within another.
5001 | opens
51 00*8 | opens
55 00*4 | opens
5001 5200 | 12 field mask
5a00 | opens
6202 5200 | opens
";

/// That the session of a case plays these steps, and that this is then its output and these its counts.
fn comes_out<P: Place>(
    rt: &impl Abort,
    alloc: Global,
    row: Row<'_>,
    steps: &str,
    output: &[u8],
    counts: &str,
) -> Result<(), Fail> {
    let mut node: Node<P> = Node::open(alloc, row)?;
    node.play(rt, row, steps)?;
    node.stays(rt, row, output, counts)
}

/// That each case of a table comes out as it says, over either ring.
fn come_out(rt: &impl Abort, alloc: Global, table: &str) -> Result<(), Fail> {
    for row in &rows(alloc, table)? {
        let output = frames_of(alloc, row.cell(4))?;
        comes_out::<ListPlace>(rt, alloc, *row, row.cell(3), &output, row.cell(5))?;
        comes_out::<RingPlace>(rt, alloc, *row, row.cell(3), &output, row.cell(5))?;
    }
    Ok(())
}

/// That a window is answered at once by this, and that a session does so, with these counts.
fn is_answered<P: Place>(
    rt: &impl Abort,
    alloc: Global,
    row: Row<'_>,
    output: &[u8],
) -> Result<(), Fail> {
    assert!(rt; replied::<P>(alloc, row)?.as_slice() == output, "{row}");
    comes_out::<P>(rt, alloc, row, "done", output, row.cell(4))
}

#[test]
fn windows_are_answered(rt: HostRuntime) -> Result<(), Fail> {
    for row in &rows(rt.alloc(), WINDOWS)? {
        let output = frames_of(rt.alloc(), row.cell(3))?;
        is_answered::<ListPlace>(&rt, rt.alloc(), *row, &output)?;
        is_answered::<RingPlace>(&rt, rt.alloc(), *row, &output)?;
    }
    Ok(())
}

#[test]
fn sessions_go_on(rt: HostRuntime) -> Result<(), Fail> {
    come_out(&rt, rt.alloc(), SESSIONS)
}

#[test]
fn windows_are_overwritten(rt: HostRuntime) -> Result<(), Fail> {
    come_out(&rt, rt.alloc(), OVERWRITTEN)
}

#[test]
fn sessions_follow(rt: HostRuntime) -> Result<(), Fail> {
    come_out(&rt, rt.alloc(), FOLLOWING)
}

#[test]
fn clients_are_heard(rt: HostRuntime) -> Result<(), Fail> {
    come_out(&rt, rt.alloc(), CLIENTS)
}

/// The session that is asked for three flows of a ring.
const THREE: &str = "3 | 0 1 2 3 4 | all";

/// That this session plays these steps, and that its link has then taken a front of this reply. Tells
/// how many bytes.
fn leaves_a_front(rt: &impl Abort, alloc: Global, reply: &[u8], steps: &str) -> Result<u64, Fail> {
    let row = Row { text: THREE };
    let mut node: Node<ListPlace> = Node::open(alloc, row)?;
    node.play(rt, row, steps)?;
    node.stays_in(rt, row, reply)
}

#[test]
fn each_write_of_a_byte_fails(rt: HostRuntime) -> Result<(), Fail> {
    let reply = frames_of(rt.alloc(), "2 3 4 ok")?;
    assert_eq!(rt; reply.len(), 86);
    for sent in 0..86u64 {
        // The first call reads the client's end.
        let call = sent.saturating_add(2);
        let steps = format!(in rt.alloc(); "end; piece 1; fail {call}; fault")?;
        assert_eq!(rt; leaves_a_front(&rt, rt.alloc(), &reply, &steps)?, sent);
    }
    Ok(())
}

/// That what a client sends is answered so in each two pieces, with a turn between them, and byte by
/// byte.
fn is_heard(rt: &impl Abort, alloc: Global, row: Row<'_>, reply: &[u8]) -> Result<(), Fail> {
    let (before, behind, answer) = (row.cell(0), row.cell(2), row.cell(3));
    let input = bytes(alloc, row.cell(1))?;
    for (cut, _) in input.iter().enumerate() {
        let (front, rest) = input.split_at_checked(cut).ok_or("a cut")?;
        let (front, rest) = (digits(alloc, front)?, digits(alloc, rest)?);
        let steps = format!(in alloc;
            "{before}; client - {front}; turn; client - {rest}; {behind}; {answer}"
        )?;
        leaves_a_front(rt, alloc, reply, &steps)?;
    }
    let whole = digits(alloc, &input)?;
    let steps = format!(in alloc; "{before}; piece 1; client {whole}; {behind}; {answer}")?;
    leaves_a_front(rt, alloc, reply, &steps)?;
    Ok(())
}

#[test]
fn inputs_come_in_pieces(rt: HostRuntime) -> Result<(), Fail> {
    let reply = frames_of(rt.alloc(), "2 3 4 ok")?;
    for row in &rows(rt.alloc(), INPUTS)? {
        is_heard(&rt, rt.alloc(), *row, &reply)?;
    }
    Ok(())
}

/// What becomes of a request: it opens a session, or is refused with a code and a text.
fn opened(alloc: Global, request: &GetFlowsRequest) -> Result<String, Fail> {
    let Err(fault) = NodeSession::open(alloc, request, "n1", 0, 3) else {
        return Ok(format!(in alloc; "opens")?);
    };
    let OpenFault::BadRequest { code, text } = fault else {
        return Err("there is memory".into());
    };
    Ok(format!(in alloc; "{code} {}", text.as_str())?)
}

#[test]
fn requests_are_refused(rt: HostRuntime) -> Result<(), Fail> {
    for row in &rows(rt.alloc(), REFUSALS)? {
        let request = GetFlowsRequest::read(rt.alloc(), &bytes(rt.alloc(), row.cell(0))?)?;
        assert_eq!(rt;
            opened(rt.alloc(), &request)?.as_str(),
            row.cell(1),
            "{row}"
        );
    }
    Ok(())
}
