//! Why the environment refuses.

ghost use Rattle.std.specs.Prelude.{◌≡◌};
ghost use Rattle.env_groups.specs.declared.fault.EnvFault.TheVariants as faults;

use std::alloc::AllocFailed;
use ts_base::NoMemory;

/// Why the environment refuses.
#[derive(Clone, Copy, Debug, PartialEq, Eq, Hash)]
pub enum EnvFault {
    /// The number of a register passes 255.
    RegisterRange,
    /// A value is none that the code can have.
    CodeRange,
    /// 255 fonts were added.
    FontsFull,
    /// 1000 groups are open.
    GroupsFull,
    /// No group is open, or the innermost is of another kind.
    GroupEnd,
    /// Memory ran out.
    NoMemory,
}

impl From<NoMemory> for EnvFault {
    ghost from_gives = { λ _ fault. fault ≡ faults.NoMemory };

    fn from(_error: NoMemory) -> EnvFault {
        EnvFault::NoMemory
    }
}

impl<T: Drop> From<AllocFailed<T>> for EnvFault {
    ghost from_gives = { λ _ fault. fault ≡ faults.NoMemory };

    fn from(_error: AllocFailed<T>) -> EnvFault {
        EnvFault::NoMemory
    }
}
