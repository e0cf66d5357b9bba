//! Items in a row.

ghost use Rattle.std.specs.Prelude.{◌≡◌, [], ◌∷◌, ◌++◌, IfOk, IsOk, OnOk, OnErr};

use crate::no_memory::NoMemory;
use std::alloc::Global;
use std::marker::Model;

/// Items in the order in which they were put. A contract sees the list of them.
#[derive(Debug, Drop)]
pub struct Seq<T> {
    vec: Vec<T>,
}

impl<T> Model for Seq<T> {
    ghost use Rattle.std.specs.Prelude.{List};

    ghost Value = { List T };

    ghost view = { λ seq. seq.vec.items };
}

impl<T: Drop> Seq<T> {
    /// A row of no items. It takes no memory.
    pub fn new(alloc: Global) -> Result<Seq<T>, NoMemory>
        ensures ok { IsOk result }
        ensures empty { IfOk result (λ seq. seq ≡ []) }
    {
        Ok(Seq {
            vec: Vec::new(alloc),
        })
    }

    /// Puts an item at the end.
    pub fn push(&mut self, item: T) -> Result<(), NoMemory>
        ensures ok { OnOk result (self.new ≡ self.old ++ item ∷ []) }
        ensures err { OnErr result (self.new ≡ self.old) }
    {
        self.vec.push(item)?;
        Ok(())
    }

    /// The items.
    pub fn as_slice(&self) -> &[T]
        ensures value { result.now ≡ self.now }
    {
        self.vec.as_slice()
    }
}

impl<T: Copy> Seq<T> {
    /// Puts copies of the items at the end.
    pub fn extend_from_slice(&mut self, items: &[T]) -> Result<(), NoMemory>
        ensures ok { OnOk result (self.new ≡ self.old ++ items.now) }
        ensures err { OnErr result (self.new ≡ self.old) }
    {
        self.vec.extend_from_slice(items)?;
        Ok(())
    }
}
