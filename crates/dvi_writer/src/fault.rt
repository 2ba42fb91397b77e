//! Why a page is refused.

ghost use Rattle.std.specs.Prelude.{◌≡◌};
ghost use Rattle.dvi_writer.specs.declared.fault.WriteFault.TheVariants as faults;

use std::alloc::AllocError;
use ts_base::NoMemory;

/// Why a page is refused. Where several hold, the first counts.
#[derive(Clone, Copy, Debug, Drop, PartialEq, Eq)]
pub enum WriteFault {
    /// It is the 65,536th.
    PagesFull,
    /// The weights of the shipped boxes would pass 20,000,000.
    JobTooLarge,
    /// A coordinate of a glyph or of a rule passes 2^29 - 1 in absolute value, or the height or the
    /// width of a rule passes 2^30 - 1.
    PlaceRange,
    NoMemory,
}

impl From<AllocError> for WriteFault {
    ghost from_gives = { λ _ fault. fault ≡ faults.NoMemory };

    fn from(_error: AllocError) -> WriteFault {
        WriteFault::NoMemory
    }
}

impl From<NoMemory> for WriteFault {
    ghost from_gives = { λ _ fault. fault ≡ faults.NoMemory };

    fn from(_error: NoMemory) -> WriteFault {
        WriteFault::NoMemory
    }
}
