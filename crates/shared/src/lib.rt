//! A value with several owners in one thread, whose copy takes no memory and can't fail.
#![tactic(auto)]

ghost use Rattle.std.specs.Prelude.{◌≡◌, IfOk, ⊤};

mod counts;
#[cfg(test)]
mod tests;

use counts::Owner;
use std::alloc::{AllocError, Global};
use std::fmt;
use std::fmt::{Debug, Formatter, Write};
use std::marker::Model;
use std::ops::Deref;
use std_alloc::room::Vacant;
use ts_base::NoMemory;

/// A value with several owners in one thread. Contracts see it as that value. The last owner drops
/// the value and frees the block.
#[derive(Drop)]
pub struct Shared<T> {
    owner: Owner<T, Global>,
}

impl<T> Model for Shared<T> {
    ghost Value = { T };

    ghost coded = { T.code };

    ghost view = { λ s. s.owner.value };
}

impl<T: Drop> Shared<T> {
    /// Returns the first owner of a value. Where memory runs out the value is dropped.
    pub fn new(alloc: Global, value: T) -> Result<Shared<T>, NoMemory>
        ensures { IfOk result (λ s. s ≡ value) }
    {
        match Vacant::take(alloc) {
            Ok(room) => Ok(Shared {
                owner: Owner::fill(room, value),
            }),
            Err(_alloc) => Err(NoMemory),
        }
    }

    /// Returns the value.
    pub fn get(&self) -> &T
        ensures { result.now ≡ self.now }
    {
        self.owner.look()
    }

    /// Returns one more owner of the same value. It takes no memory and is never refused.
    pub fn same_copy(&self) -> Shared<T>
        ensures { result ≡ self.now }
    {
        Shared {
            owner: self.owner.one_more(),
        }
    }
}

impl<T> Deref for Shared<T> {
    type Target = T;

    ghost deref_gives = { λ s x. x ≡ s };

    /// Returns the value.
    fn deref(&self) -> &T
        ensures { result.now ≡ self.now }
    {
        self.owner.look()
    }
}

/// A `clone` that is always `Ok`, for a derive or a `Vec` that asks for it.
impl<T: Drop> Clone for Shared<T> {
    ghost is_clone = { λ s copy. copy ≡ s };

    ghost is_infallible = { λ _. ⊤ };

    fn clone(&self) -> Result<Shared<T>, AllocError> {
        Ok(self.same_copy())
    }
}

impl<T: Debug> Debug for Shared<T> {
    ghost debug_output = { λ s. T.debug_output s };

    fn fmt<W: Write>(&self, f: &mut Formatter<W>) -> fmt::Result {
        Debug::fmt(self.owner.look(), f)
    }
}

impl<T: PartialEq> PartialEq for Shared<T> {
    ghost eq = { T.eq };

    ghost laws = { T.laws };

    fn eq(&self, other: &Shared<T>) -> bool {
        *self.owner.look() == *other.owner.look()
    }
}

impl<T: Eq> Eq for Shared<T> {
    ghost laws = { T.Eq.laws };
}
