//! A text that is owned.

ghost use Rattle.std.specs.Prelude.{◌≡◌, [], IfOk};
ghost use Rattle.std.specs.Str.{IsUtf8};

use crate::no_memory::NoMemory;
use std::alloc::Global;
use std::marker::Model;

/// A text in memory of its own. A contract sees its bytes, which are UTF-8.
#[derive(Debug, Drop)]
pub struct Text {
    string: String,
}

impl Model for Text {
    ghost use Rattle.std.specs.Prelude.{ℕ, List};
    ghost use Rattle.std.specs.String.{string_bytes};

    ghost Value = { List ℕ };

    ghost view = { λ text. string_bytes text.string };
}

impl Text {
    /// The empty text. It takes no memory.
    pub fn empty(alloc: Global) -> Text
        ensures value { result ≡ [] }
    {
        Text {
            string: String::new(alloc),
        }
    }

    /// A copy of `text`.
    pub fn of(alloc: Global, text: &str) -> Result<Text, NoMemory>
        ensures ok { IfOk result (λ t. t ≡ text.now) }
    {
        Ok(Text {
            string: String::from_str(alloc, text)?,
        })
    }

    /// The text itself.
    pub fn as_str(&self) -> &str
        ensures value { result.now ≡ self.now }
        ensures utf8 { IsUtf8 self.now }
    {
        self.string.as_str()
    }
}
