//! The laws of RFC 3339 texts.

ghost use Rattle.std.specs.Prelude.{◌≡◌, ℕ, List};
ghost use Rattle.hb_time.specs.declared.stamp.Stamp.{Stamp};
ghost use Rattle.hb_time.specs.Texts.{SpellsStamp, IsWritten};

/// A stamp has one text at most that is written of it.
pub fn one_text()
    ensures one { (stamp : Stamp) (a b : List ℕ) → IsWritten a stamp → IsWritten b stamp → a ≡ b }
{}

/// What is written of a stamp is read as the stamp.
pub fn reads_back()
    ensures reads { (text : List ℕ) (stamp : Stamp) → IsWritten text stamp
        → SpellsStamp text stamp }
{}
