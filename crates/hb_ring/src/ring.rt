//! `Ring`: whole writes and whole looks.
ghost use Rattle.std.specs.Prelude.{◌≡◌, ◌≢◌, ◌↔◌, ◌+◌, ◌-◌, ◌*◌, ◌^◌, ◌<◌, ◌≤◌, [], ◌∷◌, ◌++◌, length, take, drop, IfOk, IfSome};
ghost use Rattle.std.specs.Int.{w64, to_le_bytes};
ghost use Rattle.hb_look.specs.Limits.{most_records, IsCapacity};
ghost use Rattle.hb_look.specs.Reader.{Loaded, IsLater, ReaderStandsFor};
ghost use Rattle.hb_look.specs.Answers.{found_by};
ghost use Rattle.hb_ring_rule.specs.Layout.{longest_of};
ghost use Rattle.hb_ring_rule.specs.Views.{Busy};
ghost use Rattle.hb_ring_rule.specs.Steps.{new_reader_of, twin_of};
ghost use Rattle.hb_ring.specs.Passes.{IsWriterOf, IsReaderOf, HasMade, HasRead, HasStored};

use crate::passes::{ReaderPass, Retired, WriterPass};
use hb_look::{Looked, MOST_RECORDS, NoMemory, Put, Record};
use hb_ring_rule::{ReaderSeat, RingTable, Shape, WriterSeat};
use std::alloc::Global;
use std::marker::Model;

/// How many bytes a word has.
const WORD: usize = 8;

/// A fixed number of slots for the last records of a log. A record is a list of bytes, and its
/// position is its index among all records that were ever written, from 0 on. Position p stands in
/// slot `p % (capacity + 1)`.
#[derive(Drop)]
pub struct Ring {
    table: RingTable,
}

impl Model for Ring {
    ghost use Rattle.hb_ring_rule.specs.Layout.{IsShape};
    ghost use Rattle.hb_ring_rule.specs.Views.{Laid};

    ghost Value = { Laid };

    ghost view = { λ r. r.table };

    ghost invariant = { λ r. IsShape r.table.shape };
}

impl Ring {
    /// A ring that keeps the last `cap` records, each of at most `8 * slot_words` bytes, and the pass
    /// of its writer. It takes `8 * (2 + (cap + 1) * (slot_words + 1))` bytes, and while it is opened
    /// twice as many.
    pub fn open(alloc: Global, cap: u64, slot_words: u64) -> Result<(Ring, WriterPass), NoMemory>
        requires capacity { IsCapacity cap }
        requires slot { (8 ≤ slot_words) × (slot_words ≤ 8128) }
        requires size { (cap + 1) * (slot_words + 1) ≤ 2 ^ 27 }
        ensures shape { IfOk result
            (λ made. made.0.shape ≡ record { capacity = cap; slot_words = slot_words }) }
        ensures pass { IfOk result (λ made. IsWriterOf made.0 made.1) }
        ensures log { IfOk result (λ made. made.1.log ≡ []) }
    {
        let shape = Shape {
            capacity: cap,
            slot_words,
        };
        let (table, seat) = RingTable::open(alloc, shape)?;
        Ok((Ring { table }, WriterPass { seat, written: 0 }))
    }

    /// How many of the last records it keeps for its readers. It has one slot more.
    pub fn capacity(&self) -> u64
        ensures capacity { result ≡ self.now.shape.capacity }
    {
        self.table.shape().capacity
    }

    /// Writes a copy of the record at the next position. It takes no memory and no lock, and waits for
    /// no reader. The cost is a store for each word of the record and three more.
    pub fn write(&self, pass: &mut WriterPass, bytes: &[u8]) -> Put
        requires pass { IsWriterOf self.now pass.old }
        ensures pass { IsWriterOf self.now pass.new }
        ensures done { result ≡ Put.Done
            → pass.new ≡ record pass.old { log = pass.old.log ++ bytes.now ∷ [] } }
        ensures too_long { (result ≡ Put.TooLong) ↔ (longest_of self.now.shape < length bytes.now) }
        ensures spent { (result ≡ Put.Spent)
            ↔ ((length bytes.now ≤ longest_of self.now.shape)
            × (length pass.old.log ≡ most_records)) }
        ensures kept { result ≢ Put.Done → pass.new ≡ pass.old }
        ensures no_memory { result ≢ Put.NoMemory }
    {
        if bytes.len() > WORD * self.table.shape().slot_words as usize {
            return Put::TooLong;
        }
        if pass.written == MOST_RECORDS {
            return Put::Spent;
        }
        let next = pass.written + 1;
        self.table.begin(&mut pass.seat, next);
        self.store(&mut pass.seat, pass.written, bytes);
        self.table.finish(&mut pass.seat, next);
        pass.written = next;
        Put::Done
    }

    /// Stores the words of a record in the slot of its position.
    fn store(&self, seat: &mut WriterSeat, position: u64, bytes: &[u8])
        requires table { seat.old.table ≡ self.now.table }
        requires busy { seat.old.view.stage ≡ Busy position [] }
        requires next { position ≡ length seat.old.view.log }
        requires fits { length bytes.now ≤ longest_of self.now.shape }
        ensures stored { HasStored self.now seat.old seat.new bytes.now }
    {
        let start = self.table.slot_at(position);
        self.table.store(seat, start, bytes.len() as u64);
        for k in 0..bytes.len().div_ceil(WORD) {
            self.table
                .store(seat, start + 1 + k, word_of(bytes, WORD * k));
        }
    }

    /// How many records were written, which is the position of the next one.
    pub fn written(&self, pass: &WriterPass) -> u64
        requires pass { IsWriterOf self.now pass.now }
        ensures written { result ≡ length pass.now.log }
        ensures most { result ≤ most_records }
    {
        pass.written
    }

    /// A reader's pass, which has made no look and has seen what the writer finished.
    pub fn reader(&self, pass: &mut WriterPass) -> ReaderPass
        requires pass { IsWriterOf self.now pass.old }
        ensures same { pass.new ≡ pass.old }
        ensures made { IsReaderOf self.now result }
        ensures reader { result.reader ≡ new_reader_of self.now.shape (length pass.old.log) }
    {
        ReaderPass {
            seat: self.table.new_reader(&mut pass.seat),
            looked: 0,
            seen: pass.written,
        }
    }

    /// A reader's pass, which has made no look and has seen what the other has.
    pub fn split(&self, pass: &mut ReaderPass) -> ReaderPass
        requires pass { IsReaderOf self.now pass.old }
        ensures same { pass.new ≡ pass.old }
        ensures made { IsReaderOf self.now result }
        ensures reader { result.reader ≡ twin_of pass.old.reader }
    {
        ReaderPass {
            seat: self.table.twin(&mut pass.seat),
            looked: 0,
            seen: pass.seen,
        }
    }

    /// Looks at a position, at a moment in nanoseconds since 1970-01-01T00:00:00Z. A record that is
    /// there is put into the buffer, in the place of what it holds; after another answer the buffer
    /// may hold anything. It takes no memory and no lock, and waits for no writer. The cost is a load
    /// for each word of the record and three more.
    pub fn look(
        &self,
        pass: &mut ReaderPass,
        position: u64,
        moment: u64,
        out: &mut Record,
    ) -> Looked
        requires pass { IsReaderOf self.now pass.old }
        requires unspent { length pass.old.reader.looks < most_records }
        requires place { position ≤ most_records }
        requires room { pass.old.reader.longest ≤ out.old.room }
        ensures pass { IsReaderOf self.now pass.new }
        ensures made { IfSome (found_by result out.new.bytes)
            (HasMade pass.old.reader pass.new.reader position moment) }
        ensures no_memory { result ≢ Looked.NoMemory }
        ensures room { out.new.room ≡ out.old.room }
    {
        pass.looked += 1;
        pass.seen = self.table.look_up(&mut pass.seat, position, moment);
        if pass.seen <= position {
            return Looked::NotYet;
        }
        self.load(&mut pass.seat, position, out);
        let begun = self.table.end_look(&mut pass.seat, moment);
        let oldest = begun.saturating_sub(self.capacity() + 1);
        if oldest > position {
            return Looked::Gone(oldest);
        }
        Looked::Got
    }

    /// Loads the words of a record from the slot of its position, into the buffer.
    fn load(&self, seat: &mut ReaderSeat, position: u64, out: &mut Record)
        requires table { seat.old.table ≡ self.now.table }
        requires busy { seat.old.view.stage ≡ Busy position [] }
        requires longest { seat.old.view.reader.longest ≡ longest_of self.now.shape }
        requires room { longest_of self.now.shape ≤ out.old.room }
        ensures read { HasRead seat.old seat.new position out.new.bytes }
        ensures room { out.new.room ≡ out.old.room }
    {
        out.clear();
        let start = self.table.slot_at(position);
        let bytes = self.table.load_word(seat, start) as usize;
        for k in 0..bytes.div_ceil(WORD) {
            out.add(&self.table.load_word(seat, start + 1 + k).to_le_bytes());
        }
        out.truncate(bytes);
    }

    /// Loads how many records are finished, which is the position of the next one. It makes no look.
    pub fn top(&self, pass: &mut ReaderPass) -> u64
        requires pass { IsReaderOf self.now pass.old }
        ensures pass { IsReaderOf self.now pass.new }
        ensures looks { pass.new.reader.looks ≡ pass.old.reader.looks }
        ensures loaded { Loaded pass.old.reader.finished pass.new.reader.finished }
        ensures seen { result ≡ pass.new.reader.finished.count }
        ensures later { IsLater pass.old.reader pass.new.reader }
        ensures most { (result ≤ most_records)
            × (pass.new.reader.begun.count ≤ most_records) }
    {
        pass.seen = self.table.load_top(&mut pass.seat);
        pass.seen
    }

    /// Takes a reader in: its looks stand for the writer's log.
    pub fn retire(&self, writer: &mut WriterPass, pass: ReaderPass) -> Retired
        requires writer { IsWriterOf self.now writer.old }
        requires pass { IsReaderOf self.now pass }
        ensures same { writer.new ≡ writer.old }
        ensures stands { ReaderStandsFor writer.new.log pass.reader }
        ensures lost { pass.reader.begun.count ≤ length writer.new.log }
        ensures retired { (result.looked ≡ length pass.reader.looks)
            × (result.seen ≡ pass.reader.finished.count) }
    {
        let ReaderPass { seat, looked, seen } = pass;
        self.table.join(&mut writer.seat, seat);
        Retired { looked, seen }
    }
}

/// The word of the eight bytes from this one on, the lowest first. Where there are fewer, zeros stand
/// behind them.
fn word_of(bytes: &[u8], from: usize) -> u64
    requires within { from < length bytes.now }
    ensures { take (length bytes.now - from) (to_le_bytes w64 result)
        ≡ take 8 (drop from bytes.now) }
{
    let rest = &bytes[from..];
    match rest.first_chunk() {
        Some(word) => u64::from_le_bytes(*word),
        None => {
            let mut word = [0; WORD];
            word[..rest.len()].copy_from_slice(rest);
            u64::from_le_bytes(word)
        }
    }
}
