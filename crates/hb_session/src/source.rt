//! The source of the frames of a reply: look by look, what becomes owed.
ghost use Rattle.std.specs.Prelude.{◌≡◌, ◌≢◌, ◌↔◌, ◌⊎◌, ◌<◌, ◌≤◌, ◌+◌, List, [], ◌++◌, length, true, false, IfOk};
ghost use Rattle.hb_api.specs.Limits.{longest_name};
ghost use Rattle.hb_look.specs.Limits.{longest_record, most_records};
ghost use Rattle.hb_look.specs.Looks.{LookMade, added};
ghost use Rattle.hb_look.specs.Progress.{HasLooked};
ghost use Rattle.hb_session.specs.Openings.{top};
ghost use Rattle.hb_session.specs.Replies.{owed, spelled, AreMadeAfter};
ghost use Rattle.hb_session.specs.Stands.{counts_of, left, HasRoom, counted, SourceStandsFor};
ghost use Rattle.hb_session.specs.Works.{HasWorked, IsOneLook, HasLed, HasWaited};

use crate::Counts;
use crate::opening::Opening;
use crate::way::Way;
use hb_api::GetFlowsRequest;
use hb_look::{LONGEST_RECORD, Look, Looked, MOST_RECORDS, Record};
use hb_wire::NoMemory;
use std::alloc::Global;
use std::marker::Model;

/// What a piece of work came to.
#[derive(Clone, Copy)]
pub(crate) enum Worked {
    /// A look was made that leads on.
    More,
    /// The reply goes on behind the window, and nothing is there yet.
    Idle,
    /// The reader has made 2^62 looks, and may make no more.
    Spent,
    /// Memory was refused.
    NoMemory,
}

/// What is owed to a client so far, and what is known of the looks that were made for it.
#[derive(Drop)]
pub(crate) struct Source {
    opening: Opening,
    buffer: Record,
    way: Way,
    ended: bool,
}

impl Model for Source {
    ghost use Rattle.std.specs.Prelude.{◌≡◌, ◌≤◌};
    ghost use Rattle.hb_look.specs.Limits.{longest_record, most_records};
    ghost use Rattle.hb_session.specs.Openings.{top};
    ghost use Rattle.hb_session.specs.Stands.{Source};

    ghost Value = { Source };

    ghost view = { λ s. record {
      opening = s.opening;
      way = s.way;
      ended = s.ended;
    } };

    ghost invariant = { λ s. (s.buffer.room ≡ longest_record) × (top s.opening ≤ most_records) };
}

impl Source {
    /// A source of which nothing was looked at. What is owed before the first look is appended.
    pub(crate) fn open(
        alloc: Global,
        request: &GetFlowsRequest,
        name: &str,
        low: u64,
        size: u64,
        out: &mut Vec<u8>,
    ) -> Result<Source, NoMemory>
        requires window { low + size ≤ most_records }
        requires name { length name.now ≤ longest_name }
        ensures opening { IfOk result (λ s. s.opening
            ≡ record { request = request.now; name = name.now; low = low; size = size }) }
        ensures stands { IfOk result (λ s. SourceStandsFor s []) }
        ensures put { IfOk result (λ s.
            out.new.items ≡ out.old.items ++ spelled (owed s.opening [])) }
        ensures going { IfOk result (λ s. (s.ended ≡ false → HasRoom s.opening s.way)
            × (s.ended ≡ true → length out.old.items < length out.new.items)) }
    {
        let opening = Opening::new(alloc, request, name, low, size)?;
        let mut way = Way::of(alloc, &opening);
        let Ok(buffer) = Record::with_room(alloc, LONGEST_RECORD) else {
            return Err(NoMemory);
        };
        let ended = way.close(way.is_read(&opening), &opening, out)?;
        Ok(Source {
            opening,
            buffer,
            way,
            ended,
        })
    }

    /// Whether no more is to be looked at.
    pub(crate) fn has_ended(&self) -> bool
        ensures { result ≡ self.now.ended }
    {
        self.ended
    }

    /// How many records were given and passed over, and how many positions were lost, so far.
    pub(crate) fn counts(&self) -> Counts
        ensures { result ≡ counts_of self.now }
    {
        self.way.counts()
    }

    /// Makes the next look, and appends the frames that become owed by it. After `NoMemory` nothing was
    /// appended.
    #[tactic(auto, using(crate::proofs::Worked::follows_there))]
    pub(crate) fn work<R: Look>(&mut self, reader: &mut R, moment: u64, out: &mut Vec<u8>) -> Worked
        requires going { (self.old.ended ≡ false) × HasRoom self.old.opening self.old.way }
        requires seen { top self.old.opening ≤ (R.reader reader.old).finished.count }
        ensures worked { result ≢ Worked.NoMemory → HasWorked self.old self.new
            (added (R.reader reader.old).looks (R.reader reader.new).looks)
            out.old.items out.new.items }
        ensures made { (looks : List LookMade) → SourceStandsFor self.old looks
            → AreMadeAfter self.old.opening looks
            (added (R.reader reader.old).looks (R.reader reader.new).looks) }
        ensures counted { (looks : List LookMade) → SourceStandsFor self.old looks
            → (counts_of self.new ≡ counted self.old.opening looks)
            ⊎ (counts_of self.new ≡ counted self.old.opening
            (looks ++ added (R.reader reader.old).looks (R.reader reader.new).looks)) }
        ensures looked { HasLooked R.reader R.tells R.fixed reader.old reader.new }
        ensures one { IsOneLook (R.reader reader.old) (R.reader reader.new) moment
            self.old.opening.request.follow }
        ensures more { result ≡ Worked.More
            → (self.old.opening.request.follow ≡ false → left self.new < left self.old)
            × HasLed (added (R.reader reader.old).looks (R.reader reader.new).looks) }
        ensures idle { result ≡ Worked.Idle → (self.old.opening.request.follow ≡ true)
            × HasWaited (added (R.reader reader.old).looks (R.reader reader.new).looks)
            × (self.new ≡ self.old) × (out.new ≡ out.old) }
        ensures ready { result ≢ Worked.NoMemory
            → (self.new.ended ≡ false → HasRoom self.new.opening self.new.way)
            × (self.new.ended ≡ true → length out.old.items < length out.new.items) }
        ensures spent { (result ≡ Worked.Spent)
            ↔ (length (R.reader reader.old).looks ≡ most_records) }
        ensures unmoved { result ≡ Worked.Spent → (self.new ≡ self.old)
            × (reader.new ≡ reader.old) × (out.new ≡ out.old) }
        ensures grows { length out.old.items ≤ length out.new.items }
        ensures err { result ≡ Worked.NoMemory → out.new.items ≡ out.old.items }
        ensures opening { self.new.opening ≡ self.old.opening }
    {
        if reader.looked() == MOST_RECORDS {
            return Worked::Spent;
        }
        let start = out.len();
        let place = self.way.place(&self.opening);
        let added = match reader.look(place, moment, &mut self.buffer) {
            Looked::Got => self.way.read(&mut self.opening, self.buffer.bytes(), out),
            Looked::Gone(next) => self.way.gone(&mut self.opening, next, moment, out),
            Looked::NotYet => return Worked::Idle,
            Looked::NoMemory => return Worked::NoMemory,
        };
        match added {
            Ok(ended) => {
                self.ended = ended;
                Worked::More
            }
            Err(_) => {
                out.truncate(start);
                Worked::NoMemory
            }
        }
    }
}
