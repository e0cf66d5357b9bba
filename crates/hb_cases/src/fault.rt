//! Why a table could not be read.

ghost use Rattle.std.specs.Prelude.{◌≡◌};
ghost use Rattle.hb_cases.specs.declared.fault.CaseFault.TheVariants.{NoMemory};

use std::alloc::{AllocError, AllocFailed};

/// The word that is wrong, or want of memory.
#[derive(Clone, Copy, Debug, PartialEq, Eq)]
pub enum CaseFault<'a> {
    /// The word spells no bytes, or no number of the type that was asked for.
    BadWord { word: &'a str },
    /// Memory ran out.
    NoMemory,
}

impl<'a> From<AllocError> for CaseFault<'a> {
    ghost from_gives = { λ _ e. e ≡ NoMemory };

    fn from(_error: AllocError) -> CaseFault<'a> {
        CaseFault::NoMemory
    }
}

impl<'a, T: Drop> From<AllocFailed<T>> for CaseFault<'a> {
    ghost from_gives = { λ _ e. e ≡ NoMemory };

    fn from(_error: AllocFailed<T>) -> CaseFault<'a> {
        CaseFault::NoMemory
    }
}
