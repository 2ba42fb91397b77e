//! The block of a shared value, and the steps on its count. A count that is full sticks: it no
//! longer changes, and the block is never freed.

ghost use Rattle.std.specs.Prelude.{◌≡◌};
ghost use Rattle.shared.specs.Ownership.{shared_owns, shared_lends};

use std::alloc::Allocator;
use std::marker::Model;
use std_alloc::room::Vacant;

pub(crate) struct Block<T, A> {
    owners: u64,
    alloc: A,
    value: T,
}

// One of the owners of the value in a block. Its count is the number of the owners, or the greatest
// u64 from the copy on that made it full.
pub(crate) struct Owner<T, A: Allocator> {
    ptr: *const Block<T, A>,
    pub(crate) ghost value: { T },
}

impl<T, A: Allocator> Model for Owner<T, A> {
    ghost also_owns = { λ s. shared_owns A.row A.dealloc_token T.row s.ptr s.value };

    ghost also_shares = { λ s _ κ. shared_lends A.row A.dealloc_token T.row s.ptr s.value κ };
}

impl<T: Drop, A: Allocator> Drop for Owner<T, A> {
    fn drop(self) {
        if let Some((value, room)) = self.release() {
            let alloc = room.free();
            drop(value);
            drop(alloc);
        }
    }
}

impl<T, A: Allocator> Owner<T, A> {
    // Writes a value into an empty block, and returns its first owner.
    pub(crate) fn fill(room: Vacant<Block<T, A>, A>, value: T) -> Owner<T, A>
        ensures { result.value ≡ value }
    {
        let Vacant { ptr, alloc } = room;
        unsafe {
            ptr.write(Block {
                owners: 1,
                alloc,
                value,
            });
        }
        Owner { ptr }
    }

    // Returns the value.
    pub(crate) fn look(&self) -> &T
        ensures { result.now ≡ self.now.value }
    {
        unsafe { &(*self.ptr).value }
    }

    // Returns one more owner, and counts it. At a full count there is nothing left to count.
    pub(crate) fn one_more(&self) -> Owner<T, A>
        ensures { result ≡ self.now }
    {
        let ptr = self.ptr.cast_mut();
        unsafe {
            let n = (*ptr).owners;
            if n != u64::MAX {
                (*ptr).owners = n + 1;
            }
        }
        Owner { ptr }
    }

    // Gives this owner up. The last one gets the value and its block, unless the count has stuck.
    pub(crate) fn release(self) -> Option<(T, Vacant<Block<T, A>, A>)> {
        let Owner { ptr } = self;
        let ptr = ptr.cast_mut();
        unsafe {
            let n = (*ptr).owners;
            if n == u64::MAX {
                return None;
            }
            if n != 1 {
                (*ptr).owners = n - 1;
                return None;
            }
            let value = (&raw const (*ptr).value).read();
            let alloc = (&raw const (*ptr).alloc).read();
            Some((value, Vacant { ptr, alloc }))
        }
    }
}
