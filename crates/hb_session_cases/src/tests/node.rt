//! A session and its client, moved by words.
use super::place::{Client, Place};
use super::seat::Seat;
use super::words::parted;
use hb_cases::{Row, bytes, number};
use hb_edge::{Link, MemLink};
use hb_frame::{FrameReader, Next};
use hb_session::{Counts, Turn};
use std::alloc::Global;
use std::process::Abort;
use std::test::Fail;

const SECOND: u64 = 1_000_000_000;

/// A session, its client, what it answered last, and how many looks it has made.
#[derive(Drop)]
pub(crate) struct Node<P: Place> {
    alloc: Global,
    seat: Seat<P>,
    client: Client,
    answer: Turn,
    looked: u64,
}

impl<P: Place> Node<P> {
    /// The session of the first three cells of a case. Its client is silent, and may go on.
    pub(crate) fn open(alloc: Global, row: Row<'_>) -> Result<Node<P>, Fail> {
        Ok(Node {
            alloc,
            seat: Seat::open(alloc, row)?,
            client: Client {
                input: FrameReader::new(alloc)?,
                link: MemLink::new(alloc, 0)?,
                moment: 0,
            },
            answer: Turn::More,
            looked: 0,
        })
    }

    /// What the link has taken.
    fn sent(&self) -> &[u8] {
        self.client.link.sent()
    }

    /// Turns the session once.
    fn turn(&mut self) -> Turn {
        (self.answer, self.looked) = self.seat.turn(&mut self.client);
        self.answer
    }

    /// Turns as long as there is more. Tells how many turns there were.
    fn run(&mut self) -> u64 {
        for turns in 1..1_000 {
            if self.turn() != Turn::More {
                return turns;
            }
        }
        1_000
    }

    /// Whether so many turns have more to do.
    fn goes_on(&mut self, times: u64) -> bool {
        for _ in 0..times {
            if self.turn() != Turn::More {
                return false;
            }
        }
        true
    }

    /// Whether so many turns are idle, and each makes so many looks, and finds the link held so often.
    fn idles(&mut self, times: u64, looks: u64, holds: u64) -> bool {
        for _ in 0..times {
            let looked = self.looked.saturating_add(looks);
            let held = self.client.link.write_waits().saturating_add(holds);
            if self.turn() != Turn::Idle {
                return false;
            }
            if (self.looked, self.client.link.write_waits()) != (looked, held) {
                return false;
            }
        }
        true
    }

    /// Whether so many frames are taken of what was fed.
    fn takes(&mut self, times: u64) -> bool {
        for _ in 0..times {
            if self.client.input.next() == Next::NeedMore {
                return false;
            }
        }
        true
    }

    /// How many records were given, skipped and lost.
    fn counts(&self) -> Result<String, Fail> {
        let Counts {
            given,
            skipped,
            lost,
        } = self.seat.session.counts();
        Ok(format!(in self.alloc; "{given} {skipped} {lost}")?)
    }

    /// Makes a step, and tells whether it came out as it says. These set the scene: `put` records,
    /// `at` a second, a `piece` of so many bytes a call, `hold` and `free` the link, and `fail` its
    /// call of this number. The `client` sends bytes, and comes to its `end`; before, bytes were
    /// `fed` and frames of them `taken`. Others are as `shows` says.
    fn makes(&mut self, step: &str) -> Result<bool, Fail> {
        let (word, value) = parted(step);
        match word {
            "" => {}
            "put" => self.seat.put(self.alloc, value)?,
            "at" => self.client.moment = number::<u64>(value)?.saturating_mul(SECOND),
            "piece" => self.client.link.set_piece(number::<usize>(value)?.max(1)),
            "hold" => self.client.link.set_held(true),
            "free" => self.client.link.set_held(false),
            "fail" => self.client.link.set_fail(&[number(value)?])?,
            "client" => self.client.link.supply(&bytes(self.alloc, value)?)?,
            "end" => self.client.link.end(),
            "fed" => self.client.input.feed(&bytes(self.alloc, value)?)?,
            "taken" => return Ok(self.takes(number(value)?)),
            _ => return self.shows(step),
        }
        Ok(true)
    }

    /// Compares how many bytes were `sent` and are `waiting`, how often it `looked`, how often its
    /// client was `silent` at a read, and `counts`. Others are turns.
    fn shows(&mut self, step: &str) -> Result<bool, Fail> {
        let (word, value) = parted(step);
        let shown = match word {
            "sent" => self.seat.session.sent(),
            "waiting" => self.seat.session.waiting(),
            "looked" => self.looked,
            "silent" => self.client.link.read_waits(),
            "counts" => return Ok(self.counts()?.as_str() == value),
            _ => return self.answers(step),
        };
        Ok(shown == number(value)?)
    }

    /// Turns the session, and tells whether it answers so. These are so many turns: `turn 2` whatever
    /// they answer, `more 2`, `idle 3` with a write each that has to wait, and `waits 3` with a look
    /// each that finds no record. `finish done` is the call that turns it to its end; and `done` is
    /// after any turns with more, and `done in 6` where they are six with the last.
    fn answers(&mut self, step: &str) -> Result<bool, Fail> {
        let (word, value) = parted(step);
        let times = if value.is_empty() { "1" } else { value };
        match word {
            "more" => Ok(self.goes_on(number(times)?)),
            "idle" => Ok(self.idles(number(times)?, 0, 1)),
            "waits" => Ok(self.idles(number(times)?, 1, 0)),
            "turn" => {
                for _ in 0..number::<u8>(times)? {
                    _ = self.turn();
                }
                Ok(true)
            }
            "finish" => {
                (self.answer, self.looked) = self.seat.finish(&mut self.client)?;
                Ok(self.said()?.as_str() == value)
            }
            _ => {
                let turns = self.run();
                let said = self.said()?;
                Ok(
                    said.as_str() == step
                        || format!(in self.alloc; "{said} in {turns}")?.as_str() == step,
                )
            }
        }
    }

    /// How steps say the last answer.
    fn said(&self) -> Result<String, Fail> {
        let word = match self.answer {
            Turn::More => "more",
            Turn::Idle => "idle",
            Turn::Done => "done",
            Turn::Cancelled => "cancelled",
            Turn::LinkFault => "fault",
            Turn::BadInput(fault) => return Ok(format!(in self.alloc; "{fault:?}")?),
            Turn::Spent | Turn::NoMemory => "another",
        };
        Ok(format!(in self.alloc; "{word}")?)
    }

    /// That steps, parted by `;`, come out as they say.
    pub(crate) fn play(&mut self, rt: &impl Abort, row: Row<'_>, steps: &str) -> Result<(), Fail> {
        for step in steps.split(';') {
            let made = self.makes(step.trim())?;
            let said = self.said()?;
            assert!(rt; made, "{step}, not {said}, in {row}");
        }
        Ok(())
    }

    /// What can be told of it but for the bytes that the link has taken.
    fn shown(&self) -> Result<String, Fail> {
        let Client { input, link, .. } = &self.client;
        Ok(format!(in self.alloc;
            "{:?}, {} looks, {} bytes sent, {} waiting, {} faults, {} and {} waits, input {} {}, {}",
            self.answer,
            self.looked,
            self.seat.session.sent(),
            self.seat.session.waiting(),
            link.faults(),
            link.read_waits(),
            link.write_waits(),
            input.place(),
            input.whole(),
            self.counts()?
        )?)
    }

    /// That the link has taken these bytes; that, where the counts are not empty, they are so; and
    /// that a session that has ended repeats its answer and does nothing else.
    pub(crate) fn stays(
        &mut self,
        rt: &impl Abort,
        row: Row<'_>,
        sent: &[u8],
        counts: &str,
    ) -> Result<(), Fail> {
        assert_eq!(rt; self.sent(), sent, "{row}");
        assert_eq!(rt; self.seat.session.sent(), sent.len() as u64, "{row}");
        assert!(rt;
            counts.is_empty() || self.counts()?.as_str() == counts,
            "{row}"
        );
        if self.answer == Turn::More || self.answer == Turn::Idle {
            return Ok(());
        }
        let shown = self.shown()?;
        for moment in [0, SECOND, 9 * SECOND] {
            self.client.moment = moment;
            _ = self.turn();
            assert_eq!(rt; self.shown()?, shown, "{row}");
            assert_eq!(rt; self.sent(), sent, "{row}");
        }
        Ok(())
    }

    /// The same of a front of this reply. Tells how many bytes it has.
    pub(crate) fn stays_in(
        &mut self,
        rt: &impl Abort,
        row: Row<'_>,
        reply: &[u8],
    ) -> Result<u64, Fail> {
        let sent = self.sent().len();
        let front = reply.get(..sent).ok_or("no more than the reply")?;
        self.stays(rt, row, front, "")?;
        Ok(sent as u64)
    }
}
