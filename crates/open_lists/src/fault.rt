//! Why no list begins.

ghost use Rattle.std.specs.Prelude.{◌≡◌};
ghost use Rattle.open_lists.specs.declared.fault.OpenFault.TheVariants as faults;

use std::alloc::AllocError;

/// Why no list begins.
#[derive(Clone, Copy, Debug, PartialEq, Eq, Hash)]
pub enum OpenFault {
    /// 200 lists are open.
    DepthFull,
    /// Memory ran out.
    NoMemory,
}

impl From<AllocError> for OpenFault {
    ghost from_gives = { λ _ fault. fault ≡ faults.NoMemory };

    fn from(_error: AllocError) -> OpenFault {
        OpenFault::NoMemory
    }
}
