//! Why a token isn't given.

ghost use Rattle.std.specs.Prelude.{◌≡◌};
ghost use Rattle.kcat_eyes.specs.Eyes.{eye_fault, name_fault};

use input_codings::LineFault;
use thiserror::Error;
use tok_lists::NamesFault;

/// Why the next token isn't given.
#[derive(Clone, Copy, Debug, Drop, PartialEq, Eq, Error)]
pub enum EyeFault {
    /// The next character has category 15.
    #[error("an invalid character")]
    BadChar,
    /// A new name comes, and there are 50,000.
    #[error("too many names")]
    NamesFull,
    /// A line that is needed has number 1,000,001.
    #[error("too many lines")]
    TooManyLines,
    /// A line that is needed has more than 65,535 bytes before its byte 10.
    #[error("the line is too long")]
    LineTooLong,
    /// A byte of a line that is needed begins no character and no escape: its place, from 0.
    #[error("bad byte at {0}")]
    BadByte(u32),
    /// The outside failed, which is counted.
    #[error("the file couldn't be read")]
    ReadFault,
    #[error("out of memory")]
    NoMemory,
}

impl From<LineFault> for EyeFault {
    ghost from_gives = { λ of_line of_eyes. of_eyes ≡ eye_fault of_line };

    fn from(fault: LineFault) -> EyeFault {
        match fault {
            LineFault::TooManyLines => EyeFault::TooManyLines,
            LineFault::LineTooLong => EyeFault::LineTooLong,
            LineFault::BadByte(place) => EyeFault::BadByte(place),
            LineFault::ReadFault => EyeFault::ReadFault,
            LineFault::NoMemory => EyeFault::NoMemory,
        }
    }
}

impl From<NamesFault> for EyeFault {
    ghost from_gives = { λ of_names of_eyes. of_eyes ≡ name_fault of_names };

    fn from(fault: NamesFault) -> EyeFault {
        match fault {
            NamesFault::NamesFull => EyeFault::NamesFull,
            NamesFault::NoMemory => EyeFault::NoMemory,
        }
    }
}
