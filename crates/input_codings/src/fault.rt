//! Why lines aren't given.

ghost use Rattle.std.specs.Prelude.{◌≡◌};
ghost use Rattle.input_codings.specs.declared.fault.LineFault.TheVariants as faults;
ghost use Rattle.input_codings.specs.declared.fault.OpenFault.TheVariants as refusals;

use thiserror::Error;
use ts_base::NoMemory;

/// Why a file isn't opened.
#[derive(Clone, Copy, Debug, Drop, PartialEq, Eq, Error)]
pub enum OpenFault {
    #[error("there is no file of this name")]
    Missing,
    /// The outside failed, which is counted.
    #[error("the file couldn't be opened")]
    ReadFault,
    #[error("out of memory")]
    NoMemory,
}

/// Why the next line isn't given. The first that applies, in this order, but for the last two.
#[derive(Clone, Copy, Debug, Drop, PartialEq, Eq, Error)]
pub enum LineFault {
    /// The line has number 1,000,001.
    #[error("too many lines")]
    TooManyLines,
    /// The line has more than 65,535 bytes before its byte 10.
    #[error("the line is too long")]
    LineTooLong,
    /// A byte that begins no character and no escape: its place in the line, from 0.
    #[error("bad byte at {0}")]
    BadByte(u32),
    /// The outside failed, which is counted.
    #[error("the file couldn't be read")]
    ReadFault,
    #[error("out of memory")]
    NoMemory,
}

impl From<NoMemory> for OpenFault {
    ghost from_gives = { λ _ fault. fault ≡ refusals.NoMemory };

    fn from(_error: NoMemory) -> OpenFault {
        OpenFault::NoMemory
    }
}

impl From<NoMemory> for LineFault {
    ghost from_gives = { λ _ fault. fault ≡ faults.NoMemory };

    fn from(_error: NoMemory) -> LineFault {
        LineFault::NoMemory
    }
}
