//! Why words were not read.

ghost use Rattle.std.specs.Prelude.{◌≡◌};
ghost use Rattle.hb_words.specs.declared.fault.WordsFault.TheVariants as fault;

use hb_wire::NoMemory;

/// Why words were not read.
#[derive(Clone, Copy, Debug, PartialEq, Eq)]
pub enum WordsFault {
    /// They mean no job.
    BadWords,
    /// Memory was refused.
    NoMemory,
}

impl From<NoMemory> for WordsFault {
    ghost from_gives = { λ _ e. e ≡ fault.NoMemory };

    fn from(_error: NoMemory) -> WordsFault {
        WordsFault::NoMemory
    }
}
