//! What a session is played at: a ring, with its writer and one reader.
ghost use Rattle.std.specs.Prelude.{◌≡◌, ◌≤◌, false};
ghost use Rattle.hb_look.specs.Limits.{most_records, largest_capacity, IsCapacity};
ghost use Rattle.hb_look.specs.Progress.{HasLooked};
ghost use Rattle.hb_session.specs.Openings.{top};

use hb_api::GetFlowsRequest;
use hb_edge::MemLink;
use hb_frame::FrameReader;
use hb_look::{Look, Put};
use hb_session::{NodeSession, OpenFault, Turn, finish};
use std::alloc::Global;
use std::test::Fail;

/// The most bytes of a record.
pub(crate) const SLOT: usize = 64;

/// The name of the node.
pub(crate) const NAME: &str = "n1";

/// What a client is to a session, and the moment of its turns.
#[derive(Drop)]
pub(crate) struct Client {
    pub(crate) input: FrameReader,
    pub(crate) link: MemLink,
    pub(crate) moment: u64,
}

/// A ring, with its writer and one reader.
pub(crate) trait Place: Drop {
    ghost use Rattle.std.specs.Prelude.{ℕ};

    /// How many records its reader has seen to be finished.
    ghost seen: { Self → ℕ };

    /// An empty ring of this capacity.
    fn open(alloc: Global, capacity: u64) -> Result<Self, Fail>
        requires capacity { IsCapacity capacity };

    /// Puts a record.
    fn put(&mut self, record: &[u8]) -> Put
        ensures seen { seen self.new ≡ seen self.old };

    /// How many records the reader sees to be finished, and how many the ring keeps.
    fn limits(&mut self) -> (u64, u64)
        ensures seen { seen self.new ≡ result.0 }
        ensures most { result.0 ≤ most_records }
        ensures largest { result.1 ≤ largest_capacity };

    /// The whole reply to a request, read by a reader of its own.
    fn reply(&mut self, alloc: Global, request: &GetFlowsRequest) -> Result<MemLink, OpenFault>
        requires ends { request.now.follow ≡ false }
        ensures seen { seen self.new ≡ seen self.old };

    /// Turns a session once. Tells its answer, and how many looks were made so far.
    fn turn(&mut self, session: &mut NodeSession, client: &mut Client) -> (Turn, u64)
        requires seen { top session.old.source.opening ≤ seen self.old }
        ensures seen { seen self.old ≤ seen self.new }
        ensures opening { session.new.source.opening ≡ session.old.source.opening };

    /// The same, turned to its end.
    fn finish(&mut self, session: &mut NodeSession, client: &mut Client) -> (Turn, u64)
        requires seen { top session.old.source.opening ≤ seen self.old }
        requires ends { session.old.source.opening.request.follow ≡ false }
        ensures seen { seen self.old ≤ seen self.new }
        ensures opening { session.new.source.opening ≡ session.old.source.opening };
}

/// Turns a session once, over whatever reader.
pub(crate) fn turn_at<R: Look>(
    eye: &mut R,
    session: &mut NodeSession,
    client: &mut Client,
) -> (Turn, u64)
    requires seen { top session.old.source.opening ≤ (R.reader eye.old).finished.count }
    ensures looked { HasLooked R.reader R.tells R.fixed eye.old eye.new }
    ensures opening { session.new.source.opening ≡ session.old.source.opening }
{
    let answer = session.turn(eye, &mut client.input, &mut client.link, client.moment);
    (answer, eye.looked())
}

/// Turns a session to its end, over whatever reader.
pub(crate) fn finish_at<R: Look>(
    eye: &mut R,
    session: &mut NodeSession,
    client: &mut Client,
) -> (Turn, u64)
    requires seen { top session.old.source.opening ≤ (R.reader eye.old).finished.count }
    requires ends { session.old.source.opening.request.follow ≡ false }
    ensures looked { HasLooked R.reader R.tells R.fixed eye.old eye.new }
    ensures opening { session.new.source.opening ≡ session.old.source.opening }
{
    let answer = finish(
        session,
        eye,
        &mut client.input,
        &mut client.link,
        client.moment,
    );
    (answer, eye.looked())
}
