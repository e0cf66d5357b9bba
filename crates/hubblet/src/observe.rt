//! The command `observe`: a recording in, the reply of a node out.
ghost use Rattle.std.specs.Prelude.{◌≡◌, ◌≤◌, ◌↔◌, ℕ, List, length, map, string_bytes, None, Some, IfOk, IfErr};
ghost use Rattle.hb_edge.specs.Causes.{Rose};
ghost use Rattle.hb_edge.specs.Shelf.{Files};
ghost use Rattle.hb_files.specs.Files.{Has};
ghost use Rattle.hb_files.specs.Faults.{IsFaultOf};
ghost use Rattle.hb_recording.specs.Recording.{IsBadRecord};
ghost use Rattle.hb_words.specs.Limits.{IsWithin};
ghost use Rattle.hb_words.specs.Words.{job};
ghost use Rattle.hb_words.specs.declared.job.Observe as spec;
ghost use Rattle.hubblet.specs.Observe.{HasOutput, Observed, Completes};

use crate::Status;
use crate::filling::fill;
use hb_edge::{Clock, MemLink, Shelf, Sink};
use hb_files::{FileFault, read_whole, write_whole};
use hb_listring::{ListEye, ListReader, ListRing};
use hb_session::reply_of;
use hb_words::{Job, Observe, WordsFault, read_words};
use std::alloc::Global;

/// Runs the command of these words: reads the recording that they name from the shelf, and writes the
/// reply of a node that has it to the sink. It writes nothing before all was read, and asks no clock.
pub fn run<S: Shelf, K: Sink, C: Clock>(
    alloc: Global,
    words: &[String],
    shelf: &mut S,
    out: &mut K,
    clock: &C,
) -> Status
    // The words are those of no job.
    ensures bad_words { (result ≡ Status.BadWords)
        ↔ (job (map string_bytes words.now) ≡ None) }
    ensures untouched { result ≡ Status.BadWords → K.held out.new ≡ K.held out.old }

    // What each status tells of a job.
    ensures ends { (j : spec.Observe) → job (map string_bytes words.now) ≡ Some (Job.Observe j)
        → Observed j (S.files shelf.old)
        (Rose (S.faults shelf.old) (S.faults shelf.new))
        (Rose (K.faults out.old) (K.faults out.new)) (K.held out.old) (K.held out.new) result }

    // What is to come of a file that is told, where no read failed.
    ensures completes { (j : spec.Observe) (file : List ℕ) (files : Files)
        → job (map string_bytes words.now) ≡ Some (Job.Observe j)
        → S.files shelf.old ≡ Some files → Has files j.file file
        → (Rose (S.faults shelf.old) (S.faults shelf.new) → ⊥)
        → Completes j.file file (Rose (K.faults out.old) (K.faults out.new)) result }

    // What stays, whatever it answers.
    ensures kept { S.files shelf.new ≡ S.files shelf.old }
    ensures later { (S.faults shelf.old ≤ S.faults shelf.new)
        × (K.faults out.old ≤ K.faults out.new) }
    ensures fixed { (S.fixed shelf.new ≡ S.fixed shelf.old)
        × (K.fixed out.new ≡ K.fixed out.old) }
{
    match read_words(alloc, words) {
        Ok(Job::Observe(job)) => observe(alloc, job, shelf, out),
        Err(WordsFault::BadWords) => Status::BadWords,
        Err(WordsFault::NoMemory) => Status::NoMemory,
    }
}

/// Does the job.
fn observe<S: Shelf, K: Sink>(alloc: Global, job: Observe, shelf: &mut S, out: &mut K) -> Status
    requires limits { IsWithin job }
    ensures ends { Observed job (S.files shelf.old)
        (Rose (S.faults shelf.old) (S.faults shelf.new))
        (Rose (K.faults out.old) (K.faults out.new)) (K.held out.old) (K.held out.new) result }
    ensures kept { S.files shelf.new ≡ S.files shelf.old }
    ensures later { (S.faults shelf.old ≤ S.faults shelf.new)
        × (K.faults out.old ≤ K.faults out.new) }
    ensures fixed { (S.fixed shelf.new ≡ S.fixed shelf.old)
        × (K.fixed out.new ≡ K.fixed out.old) }
{
    match answer(alloc, &job, shelf) {
        Ok(link) => match write_whole(out, link.sent()) {
            Ok(()) => Status::Done,
            Err(_) => Status::WriteFault,
        },
        Err(fault) => Status::of(job.file, fault),
    }
}

/// The link that has taken the reply of a node whose ring took the job's file.
fn answer<S: Shelf>(alloc: Global, job: &Observe, shelf: &mut S) -> Result<MemLink, FileFault>
    requires limits { IsWithin job.now }
    ensures ok { IfOk result (λ link. HasOutput (S.files shelf.old) job.now link.taken) }
    ensures err { IfErr result (IsFaultOf IsBadRecord (S.files shelf.old) job.now.file
        (Rose (S.faults shelf.old) (S.faults shelf.new))) }
    ensures kept { S.files shelf.new ≡ S.files shelf.old }
    ensures later { S.faults shelf.old ≤ S.faults shelf.new }
    ensures fixed { S.fixed shelf.new ≡ S.fixed shelf.old }
{
    let file = read_whole(alloc, shelf, job.file.as_str())?;
    let Ok(mut ring) = ListRing::open(alloc, job.capacity, job.slot) else {
        return Err(FileFault::NoMemory);
    };
    fill(alloc, &file, &mut ring, job.slot)?;
    let Ok(mut reader) = ListReader::new(alloc) else {
        return Err(FileFault::NoMemory);
    };
    let mut eye = ListEye {
        reader: &mut reader,
        ring: &ring,
    };
    match reply_of(alloc, &mut eye, &job.request, job.node.as_str()) {
        Ok(link) => Ok(link),
        Err(_) => Err(FileFault::NoMemory),
    }
}
