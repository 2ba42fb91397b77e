//! Elements that move from list to list, of which none is copied.

ghost use Rattle.std.specs.Prelude.{◌≡◌, [], ◌∷◌, ◌++◌, ◌≤◌, length, take, drop, insert, option_to_list, IsNone, ◌↔◌, OnOk, OnErr, IfOk};

use crate::list::List;
use crate::memory::NoMemory;

/// The list of a vector's elements. It takes no memory.
impl<T> From<Vec<T>> for List<T> {
    ghost from_gives = { λ v l. l ≡ v.items };

    fn from(items: Vec<T>) -> List<T> {
        List { items }
    }
}

impl<T: Drop> List<T> {
    /// Returns the vector of its elements. Takes no memory.
    pub fn into_vec(self) -> Vec<T>
        ensures { result.items ≡ self }
    {
        self.items
    }

    /// Asks for room for so many more elements. The list stays, also where it is refused.
    pub fn reserve(&mut self, more: usize) -> Result<(), NoMemory>
        ensures { self.new ≡ self.old }
    {
        self.items.reserve(more).map_err(|_| NoMemory)
    }

    /// Inserts an element before the one at `at`, counted from 0, or at the end. Refused, it leaves
    /// the list as it was.
    pub fn insert(&mut self, at: usize, element: T) -> Result<(), NoMemory>
        requires { at ≤ length self.old }
        ensures ok { OnOk result (self.new ≡ insert self.old at element) }
        ensures err { OnErr result (self.new ≡ self.old) }
    {
        self.items.insert(at, element).map_err(|_| NoMemory)
    }

    /// Removes the last element and returns it, or `None` where there is none.
    pub fn pop(&mut self) -> Option<T>
        ensures items { self.old ≡ self.new ++ option_to_list result }
        ensures none { IsNone result ↔ (self.old ≡ []) }
    {
        self.items.pop()
    }

    /// Moves the elements of another list to the end, and leaves that one empty. Refused, it leaves
    /// both as they were.
    pub fn append(&mut self, other: &mut List<T>) -> Result<(), NoMemory>
        ensures ok { OnOk result (self.new ≡ self.old ++ other.old) }
        ensures taken { OnOk result (other.new ≡ []) }
        ensures err { OnErr result (self.new ≡ self.old) }
        ensures other_err { OnErr result (other.new ≡ other.old) }
    {
        self.items.append(&mut other.items).map_err(|_| NoMemory)
    }

    /// Splits the list before the element at `at`, counted from 0, or at the end: keeps the first
    /// part and returns the rest. Refused, it leaves the list as it was.
    pub fn split_off(&mut self, at: usize) -> Result<List<T>, NoMemory>
        requires { at ≤ length self.old }
        ensures kept { OnOk result (self.new ≡ take at self.old) }
        ensures rest { IfOk result (λ rest. rest ≡ drop at self.old) }
        ensures err { OnErr result (self.new ≡ self.old) }
    {
        match self.items.split_off(at) {
            Ok(items) => Ok(List { items }),
            Err(_) => Err(NoMemory),
        }
    }
}
