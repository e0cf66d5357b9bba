//! How a command ended.
ghost use Rattle.std.specs.Prelude.{◌≡◌, ◌++◌, IfOk, string_bytes};

use hb_files::FileFault;
use hb_wire::{NoMemory, Text};
use std::alloc::Global;

/// How a command ended: its exit code is `code`, and its line on standard error is `line`.
#[derive(Debug, Drop)]
pub enum Status {
    /// All input was read to its end, and all output was taken.
    Done,
    /// The words are no command.
    BadWords,
    /// A read of the file failed.
    ReadFault { file: Text },
    /// A write of the output failed.
    WriteFault,
    /// The frame that starts at this place of the file, in bytes, is bad.
    BadRecord { file: Text, at: u64 },
    /// Memory was refused.
    NoMemory,
    /// The file has more than 2^30 bytes.
    TooLarge { file: Text },
}

impl Status {
    ghost use Rattle.hubblet.specs.Lines.{code_of, line_of, status_of};

    /// The status of a command that a fault of the file of this name ended.
    pub fn of(file: Text, fault: FileFault) -> Status
        ensures status { result ≡ status_of file fault }
    {
        match fault {
            FileFault::ReadFailed => Status::ReadFault { file },
            FileFault::TooLarge => Status::TooLarge { file },
            FileFault::BadRecord { at } => Status::BadRecord { file, at },
            FileFault::NoMemory => Status::NoMemory,
        }
    }

    /// The exit code.
    pub fn code(&self) -> u8
        ensures code { result ≡ code_of self.now }
    {
        match self {
            Status::Done => 0,
            Status::BadWords => 2,
            Status::ReadFault { .. } => 3,
            Status::WriteFault => 4,
            Status::BadRecord { .. } => 5,
            Status::NoMemory => 9,
            Status::TooLarge { .. } => 12,
        }
    }

    /// The line, without the program's name and the line's end; empty where the command is done.
    pub fn line(&self, alloc: Global) -> Result<String, NoMemory>
        ensures line { IfOk result (λ line. string_bytes line ≡ line_of self.now) }
    {
        match self {
            Status::Done => Ok(String::new(alloc)),
            Status::BadWords => Ok(String::from_str(alloc, "bad words")?),
            Status::ReadFault { file } => file_line(alloc, file, ": read failed"),
            Status::WriteFault => Ok(String::from_str(alloc, "write failed")?),
            Status::BadRecord { file, at } => {
                let mut line = file_line(alloc, file, ": bad record at ")?;
                line.push_str(at.to_string(alloc)?.as_str())?;
                Ok(line)
            }
            Status::NoMemory => Ok(String::from_str(alloc, "no memory")?),
            Status::TooLarge { file } => file_line(alloc, file, ": too large"),
        }
    }
}

fn file_line(alloc: Global, file: &Text, what: &str) -> Result<String, NoMemory>
    ensures { IfOk result (λ line. string_bytes line ≡ file.now ++ what.now) }
{
    let mut line = String::from_str(alloc, file.as_str())?;
    line.push_str(what)?;
    Ok(line)
}
