//! Cuts a stream of 100 MB into frames, fed in pieces of 4,096 bytes, and prints how many it was cut
//! into. `scripts/bench` times it.
#![tactic(auto)]

use hb_frame::{FrameReader, MESSAGE, Next, NoMemory, put_frame};
use std::alloc::Global;
use std::process::ExitCode;

/// The length of a piece, in bytes.
const PIECE: usize = 4_096;

/// How many frames of 250 bytes stand in 250 pieces.
const FRAMES: usize = 4_096;

/// How often these pieces are fed.
const ROUNDS: usize = 98;

/// Frames one after another, as bytes.
fn frames(alloc: Global) -> Result<Vec<u8>, NoMemory> {
    let mut bytes = Vec::new(alloc);
    for _ in 0..FRAMES {
        put_frame(&mut bytes, MESSAGE, &[7; 245])?;
    }
    Ok(bytes)
}

/// How many frames the reader gives now. There are fewer in it than a piece has bytes.
fn count_frames(reader: &mut FrameReader) -> u64 {
    let mut count = 0_u64;
    for _ in 0..PIECE {
        let Next::Frame { .. } = reader.next() else {
            break;
        };
        count = count.saturating_add(1);
    }
    count
}

/// How many frames the stream has.
fn cut_stream(alloc: Global) -> Result<u64, NoMemory> {
    let bytes = frames(alloc)?;
    let mut reader = FrameReader::new(alloc)?;
    let mut count = 0_u64;
    for _ in 0..ROUNDS {
        for piece in bytes.chunks(PIECE) {
            reader.feed(piece)?;
            count = count.saturating_add(count_frames(&mut reader));
        }
    }
    Ok(count)
}

fn main(rt: HostRuntime) -> ExitCode {
    match cut_stream(rt.alloc()) {
        Ok(count) => {
            if println!(rt; "{count} frames").is_err() {
                return ExitCode::FAILURE;
            }
            ExitCode::SUCCESS
        }
        Err(NoMemory) => ExitCode::FAILURE,
    }
}
