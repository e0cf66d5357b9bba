//! The standard output.
ghost use Rattle.std.specs.Prelude.{◌≡◌, None};

use crate::{Sink, Sunk};
use std::io;
use std::io::Write;
use std::marker::Model;

/// The runtime's standard output. It tells nothing of what it took: a contract sees only how many
/// calls failed.
#[derive(Drop)]
pub struct StdoutSink<R: Print + Drop> {
    rt: R,
    faults: u64,
}

impl<R: Print + Drop> Model for StdoutSink<R> {
    ghost use Rattle.std.specs.Prelude.{ℕ};

    ghost Value = { ℕ };

    ghost view = { λ s. s.faults };
}

impl<R: Print + Drop> StdoutSink<R> {
    /// The standard output of this runtime. No call has failed.
    pub fn new(rt: R) -> Self
        ensures none { result ≡ 0 }
    {
        StdoutSink { rt, faults: 0 }
    }
}

impl<R: Print + Drop> Sink for StdoutSink<R> {
    ghost use Rattle.hb_edge.specs.declared.sink.Sunk.TheVariants.{Failed};

    ghost held = { λ _. None };

    ghost faults = { λ s. s };

    ghost refusals = { λ _. 0 };

    ghost answer = { λ _ _. Failed };

    ghost after = { λ s _. s };

    ghost Fixed = { Unit {0} };

    ghost fixed = { λ _. tt };

    fn write(&mut self, piece: &[u8]) -> Sunk {
        match io::writer(&self.rt).write(piece) {
            Ok(count) if 0 < count => Sunk::Took(count),
            _ => {
                self.faults = self.faults.saturating_add(1);
                Sunk::Failed
            }
        }
    }

    fn faults(&self) -> u64 {
        self.faults
    }
}
