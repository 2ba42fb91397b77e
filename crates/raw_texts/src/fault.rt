//! Why a text that is read without expansion is refused.

ghost use Rattle.std.specs.Prelude.{◌≡◌};
ghost use Rattle.mouth.specs.declared.fault.MouthFault.TheVariants as mouth_faults;
ghost use Rattle.raw_texts.specs.declared.fault.MacroFault.TheVariants as faults;

use mouth::MouthFault;
use thiserror::Error;
use ts_base::NoMemory;

/// Why a text that is read without expansion is refused. The place of a fault is that of the mouth.
#[derive(Clone, Copy, Debug, Drop, PartialEq, Eq, Error)]
pub enum MacroFault {
    /// The mouth refuses.
    #[error("{0}")]
    Mouth(MouthFault),
    /// A call's tokens differ from the macro's parameter text, or an argument has an extra `}`.
    #[error("the use of a macro doesn't match its definition")]
    UseMismatch,
    /// `\par` stands in an argument of a macro without `\long`.
    #[error("a paragraph ended in an argument")]
    ArgParagraph,
    /// `#` in a definition isn't followed by what may follow it.
    #[error("a bad parameter")]
    BadParameter,
    /// A needed `{` isn't there.
    #[error("no left brace")]
    NoBrace,
    /// A needed name isn't there.
    #[error("no name")]
    NoName,
    /// An `\or` stands in text that is skipped after a false test.
    #[error("an extra \\or")]
    ExtraCond,
}

impl From<MouthFault> for MacroFault {
    ghost from_gives = { λ of_mouth fault. fault ≡ faults.Mouth of_mouth };

    fn from(fault: MouthFault) -> MacroFault {
        MacroFault::Mouth(fault)
    }
}

impl From<NoMemory> for MacroFault {
    ghost from_gives = { λ _ fault. fault ≡ faults.Mouth mouth_faults.NoMemory };

    fn from(_error: NoMemory) -> MacroFault {
        MacroFault::Mouth(MouthFault::NoMemory)
    }
}
