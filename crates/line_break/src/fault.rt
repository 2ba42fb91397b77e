//! Why a paragraph has no breaks.

ghost use Rattle.std.specs.Prelude.{◌≡◌};
ghost use Rattle.line_break.specs.declared.fault.ParaFault.{ParaFault};

use std::alloc::AllocError;

/// Why a paragraph has no breaks.
#[derive(Clone, Copy, Debug, PartialEq, Eq, Hash)]
pub enum ParaFault {
    /// Glue of the paragraph or of its shape shrinks without end.
    InfiniteShrink,
    /// Memory ran out.
    NoMemory,
}

impl From<AllocError> for ParaFault {
    ghost from_gives = { λ _ fault. fault ≡ ParaFault.NoMemory };

    fn from(_: AllocError) -> ParaFault {
        ParaFault::NoMemory
    }
}
