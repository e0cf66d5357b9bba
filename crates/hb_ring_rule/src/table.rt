//! The table of a ring, and the single steps on it.
ghost use Rattle.std.specs.Prelude.{◌≡◌, ◌+◌, ◌*◌, ◌<◌, ◌≤◌, [], ◌∷◌, ◌++◌, length, IfOk, slice_index};
ghost use Rattle.hb_look.specs.Limits.{most_records};
ghost use Rattle.hb_ring_rule.specs.Layout.{IsShape, longest_of, word_count, slot_at};
ghost use Rattle.hb_ring_rule.specs.Records.{words_for, IsPart, IsWhole};
ghost use Rattle.hb_ring_rule.specs.Views.{Idle, Busy, first_writer, place_of, words_of};
ghost use Rattle.hb_ring_rule.specs.Steps.{begins, stores, finishes, tops, looks_up, reads, ends_look, new_reader, twin, joins, AllStand, IsNextWord, IsFinishedCount, IsBegunCount};

use crate::rule::{
    Asked, Begin, Confirm, EndLook, Finish, LoadTop, LoadWord, LookUp, NewReader, Retire, RingRule,
    Store, Twin,
};
use crate::seats::{ReaderSeat, View, WriterSeat};
use crate::shape::Shape;
use atomic_table::Table;
use hb_look::NoMemory;
use std::alloc::Global;
use std::marker::{Brand, Model};

/// The word that counts the finished records.
const FINISHED: usize = 0;

/// The word that counts those that were begun.
const BEGUN: usize = 1;

/// The words of a ring. A call through a seat makes one step on one word, and a join two; it takes no
/// memory. Each step is sequentially consistent.
#[derive(Drop)]
pub struct RingTable {
    table: Table<u8, View, Shape, RingRule, Global>,
    shape: Shape,
    ghost keyed: { table.shared.key ≡ shape },
    ghost shaped: { IsShape shape },
    ghost wide: { table.shared.table_id.words ≡ word_count shape },
}

impl Model for RingTable {
    ghost use Rattle.hb_ring_rule.specs.Views.{Laid};

    ghost Value = { Laid };

    ghost view = { λ t. record { table = t.table.shared.table_id; shape = t.shape } };
}

impl RingTable {
    /// A ring of this shape that nothing was written to, and the seat of its writer. While it is
    /// opened it takes twice the memory of its words.
    pub fn open(alloc: Global, shape: Shape) -> Result<(RingTable, WriterSeat), NoMemory>
        requires shaped { IsShape shape }
        ensures table { IfOk result (λ made. made.0.shape ≡ shape) }
        ensures seat { IfOk result
            (λ made. made.1 ≡ record { table = made.0.table; view = first_writer shape }) }
    {
        let count = 2 + (shape.capacity as usize + 1) * (shape.slot_words as usize + 1);
        let words = vec![in alloc; 0u64; count]?;
        let (table, seat) = Table::of_words(alloc, words.as_slice(), &shape)?;
        Ok((RingTable { table, shape }, WriterSeat { seat }))
    }

    /// The shape that it was opened with.
    pub fn shape(&self) -> Shape
        ensures shape { result ≡ self.now.shape }
        ensures shaped { IsShape result }
    {
        self.shape
    }

    /// The word at which the slot of a position begins.
    pub fn slot_at(&self, position: u64) -> usize
        ensures place { result ≡ slot_at self.now.shape position }
        ensures room { result + self.now.shape.slot_words < word_count self.now.shape }
        ensures shaped { IsShape self.now.shape }
    {
        let slot = (position % (self.shape.capacity + 1)) as usize;
        2 + slot * (self.shape.slot_words as usize + 1)
    }

    /// Stores the begun count: the writer begins the next record.
    pub fn begin(&self, seat: &mut WriterSeat, begun: u64)
        requires table { seat.old.table ≡ self.now.table }
        requires idle { seat.old.view.stage ≡ Idle }
        requires unspent { begun ≤ most_records }
        requires next { begun ≡ length seat.old.view.log + 1 }
        ensures begun { seat.new ≡ record seat.old { view = begins seat.old.view } }
    {
        self.table
            .shared
            .store::<Begin>(&mut seat.seat, BEGUN, begun);
    }

    /// Stores the next word of the record that was begun: its length in bytes, and then its bytes.
    pub fn store(&self, seat: &mut WriterSeat, at: usize, word: u64)
        requires table { seat.old.table ≡ self.now.table }
        requires next { IsNextWord self.now.shape seat.old.view.stage at }
        requires part { IsPart self.now.shape.slot_words
            (words_of seat.old.view.stage ++ word ∷ []) }
        ensures stored { seat.new ≡ record seat.old { view = stores word seat.old.view } }
    {
        self.table.shared.store::<Store>(&mut seat.seat, at, word);
    }

    /// Stores the finished count: the record is the log's last.
    pub fn finish(&self, seat: &mut WriterSeat, finished: u64)
        requires table { seat.old.table ≡ self.now.table }
        requires busy { seat.old.view.stage
            ≡ Busy (place_of seat.old.view.stage) (words_of seat.old.view.stage) }
        requires whole { IsWhole self.now.shape.slot_words (words_of seat.old.view.stage) }
        requires next { finished ≡ length seat.old.view.log + 1 }
        ensures finished { seat.new ≡ record seat.old { view = finishes seat.old.view } }
    {
        self.table
            .shared
            .store::<Finish>(&mut seat.seat, FINISHED, finished);
    }

    /// Loads the finished count, and makes no look.
    pub fn load_top(&self, seat: &mut ReaderSeat) -> u64
        requires table { seat.old.table ≡ self.now.table }
        requires idle { seat.old.view.stage ≡ Idle }
        ensures loaded { seat.new ≡ record seat.old { view = tops result seat.old.view } }
        ensures count { IsFinishedCount seat.old.view.reader result }
    {
        self.table.shared.load::<LoadTop>(&mut seat.seat, FINISHED)
    }

    /// Loads the finished count for a look at a position: where it is not above the position, the look
    /// is made, and has found no record yet.
    pub fn look_up(&self, seat: &mut ReaderSeat, position: u64, moment: u64) -> u64
        requires table { seat.old.table ≡ self.now.table }
        requires idle { seat.old.view.stage ≡ Idle }
        ensures looked { seat.new
            ≡ record seat.old { view = looks_up position moment result seat.old.view } }
        ensures count { IsFinishedCount seat.old.view.reader result }
    {
        self.look_up_as::<Brand>(seat, position, moment)
    }

    /// The same, at a position and a moment that a type names.
    fn look_up_as<J: Asked>(&self, seat: &mut ReaderSeat, _position: u64, _moment: u64) -> u64
        requires asked { (_position ≡ J.position) × (_moment ≡ J.moment) }
        requires table { seat.old.table ≡ self.now.table }
        requires idle { seat.old.view.stage ≡ Idle }
        ensures looked { seat.new
            ≡ record seat.old { view = looks_up J.position J.moment result seat.old.view } }
        ensures count { IsFinishedCount seat.old.view.reader result }
    {
        self.table
            .shared
            .load::<LookUp<J>>(&mut seat.seat, FINISHED)
    }

    /// Loads the next word of the record that is read.
    pub fn load_word(&self, seat: &mut ReaderSeat, at: usize) -> u64
        requires table { seat.old.table ≡ self.now.table }
        requires next { IsNextWord self.now.shape seat.old.view.stage at }
        requires room { slice_index (words_of seat.old.view.stage) 0
            ≤ longest_of self.now.shape }
        requires count { length (words_of seat.old.view.stage)
            ≤ words_for (slice_index (words_of seat.old.view.stage) 0) }
        ensures read { seat.new ≡ record seat.old { view = reads result seat.old.view } }
        ensures fits { length (words_of seat.old.view.stage) ≡ 0
            → result ≤ seat.old.view.reader.longest }
    {
        self.table.shared.load::<LoadWord>(&mut seat.seat, at)
    }

    /// Loads the begun count, once the whole record was read: the look is made.
    pub fn end_look(&self, seat: &mut ReaderSeat, moment: u64) -> u64
        requires table { seat.old.table ≡ self.now.table }
        requires busy { seat.old.view.stage
            ≡ Busy (place_of seat.old.view.stage) (words_of seat.old.view.stage) }
        requires whole { length (words_of seat.old.view.stage)
            ≡ 1 + words_for (slice_index (words_of seat.old.view.stage) 0) }
        ensures looked { seat.new
            ≡ record seat.old { view = ends_look moment result seat.old.view } }
        ensures count { IsBegunCount seat.old.view.reader result }
    {
        self.end_look_as::<Brand>(seat, moment)
    }

    /// The same, at a moment that a type names.
    fn end_look_as<J: Asked>(&self, seat: &mut ReaderSeat, _moment: u64) -> u64
        requires asked { _moment ≡ J.moment }
        requires table { seat.old.table ≡ self.now.table }
        requires busy { seat.old.view.stage
            ≡ Busy (place_of seat.old.view.stage) (words_of seat.old.view.stage) }
        requires whole { length (words_of seat.old.view.stage)
            ≡ 1 + words_for (slice_index (words_of seat.old.view.stage) 0) }
        ensures looked { seat.new
            ≡ record seat.old { view = ends_look J.moment result seat.old.view } }
        ensures count { IsBegunCount seat.old.view.reader result }
    {
        self.table.shared.load::<EndLook<J>>(&mut seat.seat, BEGUN)
    }

    /// A reader's seat, which has seen the writer's counts.
    pub fn new_reader(&self, seat: &mut WriterSeat) -> ReaderSeat
        requires table { seat.old.table ≡ self.now.table }
        ensures same { seat.new ≡ seat.old }
        ensures made { result ≡ record { table = self.now.table; view = new_reader seat.old.view } }
    {
        ReaderSeat {
            seat: self.table.shared.split_seat::<NewReader>(&mut seat.seat),
        }
    }

    /// A reader's seat, which has seen the other's counts.
    pub fn twin(&self, seat: &mut ReaderSeat) -> ReaderSeat
        requires table { seat.old.table ≡ self.now.table }
        ensures same { seat.new ≡ seat.old }
        ensures made { result ≡ record { table = self.now.table; view = twin seat.old.view } }
    {
        ReaderSeat {
            seat: self.table.shared.split_seat::<Twin>(&mut seat.seat),
        }
    }

    /// The writer takes a reader in. The load behind it tells that every reader that was taken in
    /// stands for the log.
    pub fn join(&self, seat: &mut WriterSeat, reader: ReaderSeat)
        requires table { seat.old.table ≡ self.now.table }
        requires reader { reader.table ≡ self.now.table }
        ensures joined { seat.new ≡ record seat.old { view = joins seat.old.view reader.view } }
        ensures stand { AllStand seat.new.view }
    {
        let ReaderSeat { seat: other } = reader;
        self.table.shared.join_seat::<Retire>(&mut seat.seat, other);
        self.table.shared.load::<Confirm>(&mut seat.seat, FINISHED);
    }
}
