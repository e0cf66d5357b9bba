//! The files of the system.
ghost use Rattle.std.specs.Prelude.{◌≡◌, ◌≤◌, length, IfOk, None};

use crate::{Shelf, Shelved};
use std::alloc::Global;
use std::io::{ErrorKind, Read, Seek, SeekFrom};
use std::marker::Model;
use std::rt::Files;
use std::{fs, io};

// How often a read is tried again when a signal cuts it short.
const RETRIES: u32 = 16;

/// The files that the runtime opens by their paths. It tells nothing of them: a contract sees only
/// how many calls failed. The file that was read last stays open: a read that goes on where the last
/// one of that name ended neither opens nor seeks, so it is of that file still, even where another
/// has its name by then, or it is a pipe. Each other read opens anew.
#[derive(Drop)]
pub struct FileShelf<R: Files + Drop> {
    alloc: Global,
    rt: R,
    last: Option<Opened<R::File>>,
    faults: u64,
}

// A file that is open, by its name, and the place of the byte that is read next.
#[derive(Drop)]
struct Opened<F: Drop> {
    name: String,
    place: u64,
    file: F,
}

impl<R: Files + Drop> Model for FileShelf<R> {
    ghost use Rattle.std.specs.Prelude.{ℕ};

    ghost Value = { ℕ };

    ghost view = { λ s. s.faults };
}

impl<R: Files + Drop> FileShelf<R> {
    /// The files of this runtime. No call has failed.
    pub fn new(alloc: Global, rt: R) -> Self
        ensures none { result ≡ 0 }
    {
        FileShelf {
            alloc,
            rt,
            last: None,
            faults: 0,
        }
    }

    // Reads once from the byte at `at` on. After an error no file is open.
    fn read_at(&mut self, name: &str, at: u64, buf: &mut [u8]) -> io::Result<usize>
        ensures count { IfOk result (λ n. n ≤ length buf.new) }
        ensures room { length buf.new ≡ length buf.old }
        ensures faults { self.new ≡ self.old }
    {
        let mut opened = match self.last.take() {
            Some(last) if last.place == at && last.name.as_str() == name => last,
            _ => open_at(&self.rt, self.alloc, name, at)?,
        };
        let count = read_through(&mut opened.file, buf)?;
        opened.place = at.saturating_add(count as u64);
        self.last = Some(opened);
        Ok(count)
    }
}

impl<R: Files + Drop> Shelf for FileShelf<R> {
    ghost use Rattle.hb_edge.specs.declared.shelf.Shelved.TheVariants.{Failed};

    ghost files = { λ _. None };

    ghost faults = { λ s. s };

    ghost answer = { λ _ _ _ _. Failed };

    ghost after = { λ s _ _ _. s };

    ghost Fixed = { Unit {0} };

    ghost fixed = { λ _. tt };

    fn read(&mut self, name: &str, at: u64, buf: &mut [u8]) -> Shelved {
        match self.read_at(name, at, buf) {
            Ok(0) => Shelved::End,
            Ok(count) => Shelved::Took(count),
            Err(_) => {
                self.faults = self.faults.saturating_add(1);
                Shelved::Failed
            }
        }
    }

    fn faults(&self) -> u64 {
        self.faults
    }
}

// Opens the file. Its start is reached without a seek, which not every file allows.
fn open_at<R: Files>(rt: &R, alloc: Global, name: &str, at: u64) -> io::Result<Opened<R::File>> {
    let mut file = fs::open(rt, name)?;
    if at != 0 {
        file.seek(SeekFrom::Start(at))?;
    }
    Ok(Opened {
        name: String::from_str(alloc, name)?,
        place: at,
        file,
    })
}

// Reads once, and again where a signal cut the read short.
fn read_through<F: Read>(file: &mut F, buf: &mut [u8]) -> io::Result<usize>
    ensures { IfOk result (λ n. n ≤ length buf.new) }
{
    for _ in 0..RETRIES {
        match file.read(buf) {
            Err(error) if error.kind() == ErrorKind::Interrupted => {}
            answer => return answer,
        }
    }
    file.read(buf)
}
