//! Why tokens can't be put in front of the pending ones.

ghost use Rattle.std.specs.Prelude.{◌≡◌};
ghost use Rattle.tok_lists.specs.declared.pending_fault.PendingFault.TheVariants as faults;

use std::alloc::AllocFailed;
use ts_base::NoMemory;

/// Why tokens can't be put in front of the pending ones.
#[derive(Clone, Copy, Debug, PartialEq, Eq, Hash)]
pub enum PendingFault {
    /// There would be more than 1,000,000 pending tokens.
    TokensFull,
    /// Memory ran out.
    NoMemory,
}

impl From<NoMemory> for PendingFault {
    ghost from_gives = { λ _ fault. fault ≡ faults.NoMemory };

    fn from(_error: NoMemory) -> PendingFault {
        PendingFault::NoMemory
    }
}

impl<T: Drop> From<AllocFailed<T>> for PendingFault {
    ghost from_gives = { λ _ fault. fault ≡ faults.NoMemory };

    fn from(_error: AllocFailed<T>) -> PendingFault {
        PendingFault::NoMemory
    }
}
