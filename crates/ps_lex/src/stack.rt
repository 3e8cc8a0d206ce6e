//! A list that contracts see with its last item first.
ghost use Rattle.ps_lex.specs.Stacks.{top, IsPopped};
ghost use Rattle.std.specs.Prelude.{◌≡◌, [], ◌∷◌, length, OnOk, OnErr, List as Items};
ghost use Rattle.std.specs.Prelude.{option_copied, reverse};

use ps_io::NoMemory;
use std::alloc::Global;
use std::marker::Model;

/// A list, with its last item on top.
#[derive(Debug, Drop)]
pub struct Stack<T> {
    items: Vec<T>,
}

impl<T> Model for Stack<T> {
    ghost use Rattle.std.specs.Prelude.{List as Items, reverse};
    ghost use Rattle.std.specs.Coded.{coded_list};

    ghost Value = { Items T };

    ghost coded = { coded_list T.code };

    ghost view = { λ s. reverse s.items.items };
}

impl<T> Stack<T> {
    /// No items.
    pub fn new(alloc: Global) -> Stack<T>
        ensures { result ≡ [] }
    {
        Stack {
            items: Vec::new(alloc),
        }
    }

    /// Puts an item on top. For want of memory it is dropped, and nothing changes.
    pub fn push(&mut self, item: T) -> Result<(), NoMemory>
    where
        T: Drop,
        ensures ok { OnOk result (self.new ≡ item ∷ self.old) }
        ensures err { OnErr result (self.new ≡ self.old) }
    {
        self.items.push(item)?;
        Ok(())
    }

    /// Takes the top item off.
    pub fn pop(&mut self) -> Option<T>
        ensures { IsPopped self.old self.new result }
    {
        self.items.pop()
    }

    /// How many items there are.
    pub fn len(&self) -> usize
        ensures { result ≡ length self.now }
    {
        self.items.len()
    }

    /// The top item.
    pub fn top(&self) -> Option<&T>
        ensures { option_copied result ≡ top self.now }
    {
        self.items.last()
    }

    /// Drops all items.
    pub fn clear(&mut self)
    where
        T: Drop,
        ensures { self.new ≡ [] }
    {
        self.items.clear();
    }

    /// The items, the top one last.
    pub fn items(&self) -> &[T]
        ensures { reverse result.now ≡ self.now }
    {
        self.items.as_slice()
    }
}
