//! Why a box isn't taken.

ghost use Rattle.std.specs.Prelude.{◌≡◌};
ghost use Rattle.shipping.specs.Faults.{of_writer, of_put};
ghost use Rattle.shipping.specs.declared.fault.ShipFault.TheVariants as faults;

use dvi_writer::WriteFault;
use std::alloc::AllocError;
use ts_base::NoMemory;
use ts_outside::PutFault;

/// Why a box isn't taken. Where several hold, the first counts.
#[derive(Clone, Copy, Debug, Drop, PartialEq, Eq)]
pub enum ShipFault {
    /// It would be the 65,536th.
    PagesFull,
    /// The weights of the shipped boxes would pass 20,000,000.
    JobTooLarge,
    /// A coordinate of a glyph or of a rule passes 2^29 - 1 in absolute value, or the height or the
    /// width of a rule passes 2^30 - 1.
    PlaceRange,
    /// The sink failed, which is counted.
    SinkFault,
    NoMemory,
}

impl From<WriteFault> for ShipFault {
    ghost from_gives = { λ given fault. fault ≡ of_writer given };

    fn from(fault: WriteFault) -> ShipFault {
        match fault {
            WriteFault::PagesFull => ShipFault::PagesFull,
            WriteFault::JobTooLarge => ShipFault::JobTooLarge,
            WriteFault::PlaceRange => ShipFault::PlaceRange,
            WriteFault::NoMemory => ShipFault::NoMemory,
        }
    }
}

impl From<PutFault> for ShipFault {
    ghost from_gives = { λ given fault. fault ≡ of_put given };

    fn from(fault: PutFault) -> ShipFault {
        match fault {
            PutFault::Failed => ShipFault::SinkFault,
            PutFault::NoMemory => ShipFault::NoMemory,
        }
    }
}

impl From<NoMemory> for ShipFault {
    ghost from_gives = { λ _ fault. fault ≡ faults.NoMemory };

    fn from(_error: NoMemory) -> ShipFault {
        ShipFault::NoMemory
    }
}

impl From<AllocError> for ShipFault {
    ghost from_gives = { λ _ fault. fault ≡ faults.NoMemory };

    fn from(_error: AllocError) -> ShipFault {
        ShipFault::NoMemory
    }
}
