//! Why the gullet refuses.

ghost use Rattle.std.specs.Prelude.{◌≡◌};
ghost use Rattle.expander.specs.GulletFaults.{of_mouth_fault, of_macro_fault, of_scan_kind, of_step_fault};

use crate::fault::StepFault;
use mouth::MouthFault;
use raw_texts::MacroFault;
use scan_syntax::ScanKind;
use thiserror::Error;

/// Why the gullet refuses. The place of a fault is `Gullet::place`.
#[derive(Clone, Copy, Debug, Drop, PartialEq, Eq, Error)]
pub enum GulletFault {
    /// An undefined name is expanded.
    #[error("an undefined name")]
    Undefined,
    /// A call's tokens differ from the macro's parameter text, or an argument has an extra `}`.
    #[error("the use of a macro doesn't match its definition")]
    UseMismatch,
    /// `\par` stands in an argument of a macro without `\long`.
    #[error("a paragraph ended in an argument")]
    ArgParagraph,
    /// A file ends inside an argument, a definition, a token list or skipped text.
    #[error("the file ended too early")]
    FileEnded,
    /// `#` in a definition isn't followed by what may follow it.
    #[error("a bad parameter")]
    BadParameter,
    /// `\else`, `\or` or `\fi` has no open conditional that allows it.
    #[error("an extra \\else, \\or or \\fi")]
    ExtraCond,
    /// Something other than a character stands before an `\endcsname`.
    #[error("a name ended too early")]
    CsnameEnd,
    /// A needed `{` isn't there.
    #[error("no left brace")]
    NoBrace,
    /// A needed control name or file name isn't there, or isn't valid.
    #[error("no name")]
    NoName,
    /// There is no file of this name.
    #[error("the file is missing")]
    FileMissing,
    /// A 16th file would be open.
    #[error("too many open files")]
    InputsFull,
    /// More than 1,000,000 tokens would be pending in the innermost file.
    #[error("too many pending tokens")]
    TokensFull,
    /// The main file ends.
    #[error("the main file ended")]
    NoEnd,
    /// An expansion begins while 200 others have begun and not ended.
    #[error("too many expansions have begun")]
    DepthFull,
    /// A unit is needed and none is left.
    #[error("no unit is left")]
    Budget,
    /// The next character has category 15.
    #[error("an invalid character")]
    BadChar,
    /// A new name comes, and there are 50,000.
    #[error("too many names")]
    NamesFull,
    /// A line that is needed has number 1,000,001.
    #[error("too many lines")]
    TooManyLines,
    /// A line that is needed has more than 65,535 bytes before its byte 10.
    #[error("the line is too long")]
    LineTooLong,
    /// A byte of a line that is needed begins no character and no escape: its place, from 0.
    #[error("bad byte at {0}")]
    BadByte(u32),
    /// No number begins where one is needed.
    #[error("no number")]
    NoNumber,
    /// An integer is too great.
    #[error("the number is out of range")]
    NumberRange,
    /// No unit follows a number that needs one.
    #[error("no unit of measure")]
    NoUnit,
    /// A dimension is too great.
    #[error("the dimension is out of range")]
    DimenRange,
    /// The number of a register isn't from 0 to 255.
    #[error("no such register")]
    RegisterRange,
    /// A number is none of a character.
    #[error("no such character")]
    CodeRange,
    /// The outside failed, which is counted.
    #[error("the file couldn't be read")]
    ReadFault,
    #[error("out of memory")]
    NoMemory,
}

impl From<MouthFault> for GulletFault {
    ghost from_gives = { λ of_mouth fault. fault ≡ of_mouth_fault of_mouth };

    fn from(fault: MouthFault) -> GulletFault {
        match fault {
            MouthFault::FileEnded => GulletFault::FileEnded,
            MouthFault::FileMissing => GulletFault::FileMissing,
            MouthFault::InputsFull => GulletFault::InputsFull,
            MouthFault::TokensFull => GulletFault::TokensFull,
            MouthFault::NoEnd => GulletFault::NoEnd,
            MouthFault::DepthFull => GulletFault::DepthFull,
            MouthFault::Budget => GulletFault::Budget,
            MouthFault::BadChar => GulletFault::BadChar,
            MouthFault::NamesFull => GulletFault::NamesFull,
            MouthFault::TooManyLines => GulletFault::TooManyLines,
            MouthFault::LineTooLong => GulletFault::LineTooLong,
            MouthFault::BadByte(place) => GulletFault::BadByte(place),
            MouthFault::ReadFault => GulletFault::ReadFault,
            MouthFault::NoMemory => GulletFault::NoMemory,
        }
    }
}

impl From<MacroFault> for GulletFault {
    ghost from_gives = { λ of_macro fault. fault ≡ of_macro_fault of_macro };

    fn from(fault: MacroFault) -> GulletFault {
        match fault {
            MacroFault::Mouth(fault) => GulletFault::from(fault),
            MacroFault::UseMismatch => GulletFault::UseMismatch,
            MacroFault::ArgParagraph => GulletFault::ArgParagraph,
            MacroFault::BadParameter => GulletFault::BadParameter,
            MacroFault::NoBrace => GulletFault::NoBrace,
            MacroFault::NoName => GulletFault::NoName,
            MacroFault::ExtraCond => GulletFault::ExtraCond,
        }
    }
}

impl From<ScanKind> for GulletFault {
    ghost from_gives = { λ kind fault. fault ≡ of_scan_kind kind };

    fn from(kind: ScanKind) -> GulletFault {
        match kind {
            ScanKind::NoNumber => GulletFault::NoNumber,
            ScanKind::NumberRange => GulletFault::NumberRange,
            ScanKind::NoUnit => GulletFault::NoUnit,
            ScanKind::DimenRange => GulletFault::DimenRange,
            ScanKind::NoName => GulletFault::NoName,
            ScanKind::RegisterRange => GulletFault::RegisterRange,
            ScanKind::CodeRange => GulletFault::CodeRange,
        }
    }
}

impl From<StepFault> for GulletFault {
    ghost from_gives = { λ of_step fault. fault ≡ of_step_fault of_step };

    fn from(fault: StepFault) -> GulletFault {
        match fault {
            StepFault::Text(fault) => GulletFault::from(fault),
            StepFault::Undefined => GulletFault::Undefined,
            StepFault::CsnameEnd => GulletFault::CsnameEnd,
            StepFault::Scan(kind) => GulletFault::from(kind),
        }
    }
}
