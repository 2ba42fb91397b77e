//! Why a scan refuses.

ghost use Rattle.std.specs.Prelude.{◌≡◌};
ghost use Rattle.scan_numbers.specs.declared.fault.ScanFault.TheVariants.{Kind, NoMemory};

use std::alloc::{AllocError, AllocFailed};

/// What is wrong with the tokens.
#[derive(Clone, Copy, Debug, PartialEq, Eq)]
pub enum ScanKind {
    /// No number begins.
    NoNumber,
    /// A number is greater than 2^31 - 1.
    NumberRange,
    /// No unit follows.
    NoUnit,
    /// A dimension is 2^30 sp or more from 0.
    DimenRange,
    /// No valid name of a file is there.
    NoName,
    /// The number of a register isn't from 0 to 255.
    RegisterRange,
    /// The number of a character is that of none whose code is wanted.
    CodeRange,
}

/// Why a scan refuses.
#[derive(Clone, Copy, Debug, Drop, PartialEq, Eq)]
pub enum ScanFault {
    Kind(ScanKind),
    NoMemory,
}

impl From<ScanKind> for ScanFault {
    ghost from_gives = { λ kind fault. fault ≡ Kind kind };

    fn from(kind: ScanKind) -> ScanFault {
        ScanFault::Kind(kind)
    }
}

impl From<AllocError> for ScanFault {
    ghost from_gives = { λ _ fault. fault ≡ NoMemory };

    fn from(_: AllocError) -> ScanFault {
        ScanFault::NoMemory
    }
}

impl<T: Drop> From<AllocFailed<T>> for ScanFault {
    ghost from_gives = { λ _ fault. fault ≡ NoMemory };

    fn from(_: AllocFailed<T>) -> ScanFault {
        ScanFault::NoMemory
    }
}
