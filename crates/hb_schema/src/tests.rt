//! Rows of bytes worked out by hand from the Protocol Buffers encoding guide: what they read as, in
//! words (the fields that are there, bytes in hexadecimal digits; `-` where there is none; or the
//! fault and its place), and how that is written.

mod faults;
mod members;
mod numbers;
mod sample;
mod samples;
mod words;

use super::*;
use hb_cases::{bytes, digits, number, rows};
use hb_time::Stamp;
use hb_wire::{Field, NoMemory, Seq, Text};
use sample::{Choice, Member, Sample, Small};
use std::alloc::Global;
use std::process::Abort;
use std::test::*;
use words::{all_rows, read_words};
