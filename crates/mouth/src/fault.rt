//! Why the mouth refuses.

ghost use Rattle.std.specs.Prelude.{◌≡◌};
ghost use Rattle.mouth.specs.declared.fault.MouthFault.TheVariants as faults;
ghost use Rattle.mouth.specs.Reading.{of_eyes, of_names, of_open, of_pending};

use input_codings::OpenFault;
use kcat_eyes::EyeFault;
use std::alloc::{AllocError, AllocFailed};
use thiserror::Error;
use tok_lists::{NamesFault, PendingFault};
use ts_base::NoMemory;

/// Why the mouth refuses. The place of a fault is `Mouth::place`.
#[derive(Clone, Copy, Debug, Drop, PartialEq, Eq, Error)]
pub enum MouthFault {
    /// A file ends inside an argument, a definition, a token list or skipped text.
    #[error("the file ended too early")]
    FileEnded,
    /// There is no file of this name.
    #[error("the file is missing")]
    FileMissing,
    /// A 16th file would be open.
    #[error("too many open files")]
    InputsFull,
    /// More than 1,000,000 tokens would be pending in the innermost file.
    #[error("too many pending tokens")]
    TokensFull,
    /// The main file ends.
    #[error("the main file ended")]
    NoEnd,
    /// An expansion begins while 200 others have begun and not ended.
    #[error("too many expansions have begun")]
    DepthFull,
    /// A unit is needed and none is left.
    #[error("no unit is left")]
    Budget,
    /// The next character has category 15.
    #[error("an invalid character")]
    BadChar,
    /// A new name comes, and there are 50,000.
    #[error("too many names")]
    NamesFull,
    /// A line that is needed has number 1,000,001.
    #[error("too many lines")]
    TooManyLines,
    /// A line that is needed has more than 65,535 bytes before its byte 10.
    #[error("the line is too long")]
    LineTooLong,
    /// A byte of a line that is needed begins no character and no escape: its place, from 0.
    #[error("bad byte at {0}")]
    BadByte(u32),
    /// The outside failed, which is counted.
    #[error("the file couldn't be read")]
    ReadFault,
    #[error("out of memory")]
    NoMemory,
}

impl From<EyeFault> for MouthFault {
    ghost from_gives = { λ of_eye of_mouth. of_mouth ≡ of_eyes of_eye };

    fn from(fault: EyeFault) -> MouthFault {
        match fault {
            EyeFault::BadChar => MouthFault::BadChar,
            EyeFault::NamesFull => MouthFault::NamesFull,
            EyeFault::TooManyLines => MouthFault::TooManyLines,
            EyeFault::LineTooLong => MouthFault::LineTooLong,
            EyeFault::BadByte(place) => MouthFault::BadByte(place),
            EyeFault::ReadFault => MouthFault::ReadFault,
            EyeFault::NoMemory => MouthFault::NoMemory,
        }
    }
}

impl From<NamesFault> for MouthFault {
    ghost from_gives = { λ of_name of_mouth. of_mouth ≡ of_names of_name };

    fn from(fault: NamesFault) -> MouthFault {
        match fault {
            NamesFault::NamesFull => MouthFault::NamesFull,
            NamesFault::NoMemory => MouthFault::NoMemory,
        }
    }
}

impl From<PendingFault> for MouthFault {
    ghost from_gives = { λ of_tokens of_mouth. of_mouth ≡ of_pending of_tokens };

    fn from(fault: PendingFault) -> MouthFault {
        match fault {
            PendingFault::TokensFull => MouthFault::TokensFull,
            PendingFault::NoMemory => MouthFault::NoMemory,
        }
    }
}

impl From<OpenFault> for MouthFault {
    ghost from_gives = { λ of_opening of_mouth. of_mouth ≡ of_open of_opening };

    fn from(fault: OpenFault) -> MouthFault {
        match fault {
            OpenFault::Missing => MouthFault::FileMissing,
            OpenFault::ReadFault => MouthFault::ReadFault,
            OpenFault::NoMemory => MouthFault::NoMemory,
        }
    }
}

impl From<NoMemory> for MouthFault {
    ghost from_gives = { λ _ fault. fault ≡ faults.NoMemory };

    fn from(_error: NoMemory) -> MouthFault {
        MouthFault::NoMemory
    }
}

impl From<AllocError> for MouthFault {
    ghost from_gives = { λ _ fault. fault ≡ faults.NoMemory };

    fn from(_error: AllocError) -> MouthFault {
        MouthFault::NoMemory
    }
}

impl<T: Drop> From<AllocFailed<T>> for MouthFault {
    ghost from_gives = { λ _ fault. fault ≡ faults.NoMemory };

    fn from(_failed: AllocFailed<T>) -> MouthFault {
        MouthFault::NoMemory
    }
}
