//! A session at a place: what has facts that are not shown by running, behind few functions.
ghost use Rattle.std.specs.Prelude.{◌≡◌, ◌≤◌, IfSome};
ghost use Rattle.hb_look.specs.Limits.{IsCapacity};
ghost use Rattle.hb_session.specs.Openings.{top};

use super::place::{Client, NAME, Place};
use super::words::{request_of, spelled};
use hb_cases::{Row, number};
use hb_look::Put;
use hb_session::{NodeSession, Turn};
use std::alloc::Global;
use std::test::Fail;

/// A capacity of a ring.
fn capacity_of(text: &str) -> Option<u64>
    ensures { IfSome result IsCapacity }
{
    match text {
        "1" => Some(1),
        "3" => Some(3),
        "7" => Some(7),
        _ => None,
    }
}

/// Puts a record so many times.
fn put_times<P: Place>(place: &mut P, record: &[u8], times: u8) -> Result<(), Fail>
    ensures seen { P.seen place.new ≡ P.seen place.old }
{
    for _ in 0..times {
        if place.put(record) != Put::Done {
            return Err("a record is put".into());
        }
    }
    Ok(())
}

/// Puts the records of these words, in order: of `9*3` three times.
fn put_all<P: Place>(place: &mut P, alloc: Global, words: &str) -> Result<(), Fail>
    ensures seen { P.seen place.new ≡ P.seen place.old }
{
    for word in words.split_whitespace() {
        let (word, times) = word.split_once('*').unwrap_or((word, "1"));
        put_times(place, &spelled(alloc, word, 1)?, number(times)?)?;
    }
    Ok(())
}

/// The place of the first two cells of a case: its ring's capacity, and what was put into it.
fn place_of<P: Place>(alloc: Global, row: Row<'_>) -> Result<P, Fail> {
    let capacity = capacity_of(row.cell(0)).ok_or("a capacity")?;
    let mut place = P::open(alloc, capacity)?;
    put_all(&mut place, alloc, row.cell(1))?;
    Ok(place)
}

/// The whole reply of the place of a case to what is asked, which does not follow.
pub(crate) fn replied<P: Place>(alloc: Global, row: Row<'_>) -> Result<Vec<u8>, Fail> {
    let mut place: P = place_of(alloc, row)?;
    let mut request = request_of(alloc, row.cell(2))?;
    request.follow = false;
    let link = place.reply(alloc, &request)?;
    Ok(link.sent().to_vec(alloc)?)
}

/// A place, and one session at it.
#[derive(Drop)]
pub(crate) struct Seat<P: Place> {
    place: P,
    pub(crate) session: NodeSession,
    follow: bool,
    ghost seen: { top session.source.opening ≤ P.seen place },
    ghost follows: { session.source.opening.request.follow ≡ follow },
}

impl<P: Place> Seat<P> {
    /// The session of the first three cells of a case: it is opened at what the ring has now.
    pub(crate) fn open(alloc: Global, row: Row<'_>) -> Result<Seat<P>, Fail> {
        let mut place: P = place_of(alloc, row)?;
        let (top, cap) = place.limits();
        let request = request_of(alloc, row.cell(2))?;
        let session = NodeSession::open(alloc, &request, NAME, top, cap)?;
        Ok(Seat {
            place,
            session,
            follow: request.follow,
        })
    }

    /// Puts the records of these words.
    pub(crate) fn put(&mut self, alloc: Global, words: &str) -> Result<(), Fail> {
        put_all(&mut self.place, alloc, words)
    }

    /// Turns the session once. Tells its answer, and how many looks were made so far.
    pub(crate) fn turn(&mut self, client: &mut Client) -> (Turn, u64) {
        self.place.turn(&mut self.session, client)
    }

    /// The same of a session that does not follow, which is turned to its end.
    pub(crate) fn finish(&mut self, client: &mut Client) -> Result<(Turn, u64), Fail> {
        if self.follow {
            return Err("a session that ends".into());
        }
        Ok(self.place.finish(&mut self.session, client))
    }
}
