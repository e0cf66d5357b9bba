//! Words, and the jobs that they mean, worked out by hand.
use super::*;
use hb_cases::rows;
use std::test::*;

mod jobs;
mod refused;

/// A command with no option but the output.
const PLAIN: &str = "observe f --output frames";

/// The words of cells, parted by spaces. What stands in double quotes is one word.
fn words_of(rt: HostRuntime, cells: &[&str]) -> Result<Vec<String>, Fail> {
    let mut words = Vec::new(rt.alloc());
    for cell in cells {
        for (at, piece) in cell.split('"').enumerate() {
            if at % 2 == 1 {
                words.push(String::from_str(rt.alloc(), piece)?)?;
                continue;
            }
            for word in piece.split_ascii_whitespace() {
                words.push(String::from_str(rt.alloc(), word)?)?;
            }
        }
    }
    Ok(words)
}

/// What the words mean, as a text: `"file" capacity slot node number first`.
fn meaning(rt: HostRuntime, words: &[String]) -> Result<String, Fail> {
    match read_words(rt.alloc(), words) {
        Ok(Job::Observe(observe)) => observe_text(rt, &observe),
        Err(WordsFault::BadWords) => Ok(String::from_str(rt.alloc(), "bad words")?),
        Err(WordsFault::NoMemory) => Ok(String::from_str(rt.alloc(), "no memory")?),
    }
}

fn observe_text(rt: HostRuntime, observe: &Observe) -> Result<String, Fail> {
    let (file, node) = (observe.file.as_str(), observe.node.as_str());
    let (capacity, slot) = (observe.capacity, observe.slot);
    let (number, first) = (observe.request.number, observe.request.first);
    Ok(format!(in rt.alloc(); "\"{file}\" {capacity} {slot} {node} {number} {first}")?)
}
